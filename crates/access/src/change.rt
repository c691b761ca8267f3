// The work of an update: its record appended, the slot changed, its owner set.
ghost use Rattle.std.specs.Prelude.{◌≡◌, ◌+◌, ◌≤◌, ◌<◌, length, set};
ghost use Rattle.std.proofs.lemmas.List.Edits.{sets};
ghost use Rattle.model.specs.declared.Sizes.{Sizes};
ghost use Rattle.model.specs.declared.Logs.{Logs};
ghost use Rattle.model.specs.Word.{xors, ones_over, part};
ghost use Rattle.model.specs.Record.{encode};
ghost use Rattle.model.specs.World.{World};
ghost use Rattle.model.specs.Memory.{owner_at};
ghost use Rattle.device.specs.Ran.{with_slices};
ghost use Rattle.disk_log.specs.Write.{Within, Encodable, change_of, Lent, Appends};
ghost use Rattle.access.specs.Tasks.{with_memory, tip_in, Counts, Replaced};

use disk_log::kinds::words_of;
use disk_log::write::{Head, Home, Tip, flush_disk};
use words::{copy_words, difference};

// Where the log ends after a change, and how many bits of its difference are 1.
#[derive(Clone, Copy)]
pub struct Changed {
    pub tip: Tip,
    pub ones: u64,
}

// Writes a change into the work memory from index `to` on, and hands back how many bits of its difference are 1: that of the slot at
// `at` in the page memory to its new value.
fn put_change(
    work: &mut [u64],
    to: usize,
    head: Head,
    pages: &[u64],
    at: usize,
    value: &[u64],
) -> u64
    requires { Encodable head (length value.now) × (to + 3 + length value.now ≤ length work.old) × (at + length value.now ≤ length pages.now) }
    ensures { (work.new ≡ sets work.old to
        (encode (change_of head (xors (part at (length value.now) pages.now) value.now))))
        × (result ≡ ones_over (xors (part at (length value.now) pages.now) value.now)) }
{
    let n = value.len() as u64;
    work[to] = head.kind + 8 * head.page + 512 * head.slot + 65536 * n;
    work[to + 1] = head.number;
    work[to + 2] = head.copy;
    difference(work, to + 3, pages, at, value)
}

// Appends such a change: behind the words that the buffer has, and where it does not fit there, after a flush; None: that was cut.
fn log_change(
    home: Home,
    head: Head,
    pages: &[u64],
    at: usize,
    value: &[u64],
    logs: &mut [u64],
    work: &mut [u64],
    budget: &mut u64,
) -> Option<Changed>
    requires { Within home logs.old work.old × Encodable head (length value.now) × (at + length value.now ≤ length pages.now) }
    ensures { ((s : Sizes) (l : Logs) (w : World) → Lent s l w home logs.old work.old
        → Appends budget.old budget.new s l home.disk
        (encode (change_of head (xors (part at (length value.now) pages.now) value.now))) w
        (with_slices w logs.new work.new) (tip_in result))
        × Counts (xors (part at (length value.now) pages.now) value.now) result }
{
    let n = words_of(head.kind, value.len() as u64);
    let buffer = home.buffer;
    let tail = home.tail;
    let fill = home.fill;
    if fill + n <= 64 {
        let ones = put_change(work, (buffer + fill) as usize, head, pages, at, value);
        let tip = Tip {
            tail,
            fill: fill + n,
        };
        return Some(Changed { tip, ones });
    }
    if !flush_disk(logs, work, home, budget) {
        return None;
    }
    let ones = put_change(work, buffer as usize, head, pages, at, value);
    let tip = Tip {
        tail: tail + fill,
        fill: n,
    };
    Some(Changed { tip, ones })
}

// Sets a slot's words, and its owner at the index `owner` of the work memory.
fn set_slot(
    pages: &mut [u64],
    work: &mut [u64],
    at: usize,
    owner: usize,
    value: &[u64],
    number: u64,
)
    requires { (at + length value.now ≤ length pages.old) × (owner < length work.old) }
    ensures { (pages.new ≡ sets pages.old at value.now) × (work.new ≡ set work.old owner number) }
{
    let n = value.len();
    copy_words(pages, at, value, 0, n);
    work[owner] = number;
}

// Both, the second only if the first is not cut.
pub fn log_and_set(
    home: Home,
    head: Head,
    at: usize,
    owner: usize,
    value: &[u64],
    pages: &mut [u64],
    logs: &mut [u64],
    work: &mut [u64],
    budget: &mut u64,
) -> Option<Changed>
    requires { Within home logs.old work.old × Encodable head (length value.now) × (at + length value.now ≤ length pages.old) × (owner < length work.old) }
    ensures { (s : Sizes) (l : Logs) (w : World) → Lent s l w home logs.old work.old → w.pages ≡ pages.old → owner ≡ owner_at s at
        → Replaced budget.old budget.new s l home.disk head at value.now w (with_memory w pages.new logs.new work.new) result }
{
    let changed = log_change(home, head, pages, at, value, logs, work, budget)?;
    set_slot(pages, work, at, owner, value, head.number);
    Some(changed)
}
