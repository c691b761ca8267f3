// Writing: a record's words into a disk's buffer, and a buffer's words into the ring.
ghost use Rattle.std.specs.Prelude.{◌≡◌, [], ◌∷◌, ◌+◌, ◌≤◌, length, take};
ghost use Rattle.std.proofs.lemmas.List.Edits.{sets};
ghost use Rattle.model.specs.declared.Sizes.{Sizes};
ghost use Rattle.model.specs.declared.Logs.{Logs};
ghost use Rattle.model.specs.Word.{part};
ghost use Rattle.model.specs.Record.{close, header, encode};
ghost use Rattle.model.specs.World.{World};
ghost use Rattle.model.specs.Append.{flush};
ghost use Rattle.device.specs.Ran.{Ran, with_slices};
ghost use Rattle.disk_log.specs.Write.{Within, Encodable, change_of, Lent, Ends, Appends};

use crate::kinds::words_of;
use device::{store_ring, store_word};
use words::copy_words;

// A disk, and what a writer needs of it: the index of its tail word in the logs of all disks, its ring size, where its buffer lies in
// the work memory, its tail, and how many words are buffered.
#[derive(Clone, Copy)]
pub struct Home {
    pub disk: u64,
    pub place: u64,
    pub ring: u64,
    pub buffer: u64,
    pub tail: u64,
    pub fill: u64,
}

// Stores a disk's buffered words at the tail and onward, then the new tail, as far as the budget goes; true if all are stored.
pub fn flush_disk(logs: &mut [u64], work: &[u64], home: Home, budget: &mut u64) -> bool
    requires { Within home logs.old work.now }
    ensures { (s : Sizes) (l : Logs) (w : World) → Lent s l w home logs.old work.now
        → Ran budget.old budget.new (flush s l w.work home.disk) w (with_slices w logs.new work.now) result }
{
    let fill = home.fill;
    if fill == 0 {
        return true;
    }
    let place = home.place as usize;
    let tail = home.tail;
    if !store_ring(
        logs,
        place + 1,
        home.ring as usize,
        tail as usize,
        work,
        home.buffer as usize,
        fill as usize,
        budget,
    ) {
        return false;
    }
    store_word(logs, place, tail + fill, budget)
}

// What a change says beside its difference. `copy` is 01's copy number.
#[derive(Clone, Copy)]
pub struct Head {
    pub kind: u64,
    pub page: u64,
    pub slot: u64,
    pub number: u64,
    pub copy: u64,
}

// Writes the first three words of a change into `words`, which has the difference from its fourth word on.
fn encode_change(words: &mut [u64], head: Head, width: u64)
    requires { Encodable head width × (3 + width ≤ length words.old) }
    ensures words_after { words.new
        ≡ sets words.old 0 (header head.kind head.page head.slot width ∷ head.number ∷ head.copy ∷ []) }
    ensures words_after_2 { take (3 + width) words.new ≡ encode (change_of head (part 3 width words.old)) }
{
    words[0] = head.kind + 8 * head.page + 512 * head.slot + 65536 * width;
    words[1] = head.number;
    words[2] = head.copy;
}

// Puts a record's words into the work memory from index `at` on.
fn put_record(work: &mut [u64], at: u64, words: &[u64])
    requires { at + length words.now ≤ length work.old }
    ensures { work.new ≡ sets work.old at words.now }
{
    copy_words(work, at as usize, words, 0, words.len());
}

// Where a disk's log ends: `fill` buffered words behind its tail.
#[derive(Clone, Copy)]
pub struct Tip {
    pub tail: u64,
    pub fill: u64,
}

// Puts a record's words behind those that the buffer has; it is flushed first where they do not fit its free words. Hands back where
// the log then ends; None: the budget ran out before all stores were made.
fn append(
    logs: &mut [u64],
    work: &mut [u64],
    home: Home,
    words: &[u64],
    budget: &mut u64,
) -> Option<Tip>
    requires { Within home logs.old work.old × (length words.now ≤ 64) }
    ensures appends { (s : Sizes) (l : Logs) (w : World) → Lent s l w home logs.old work.old
        → Appends budget.old budget.new s l home.disk words.now w (with_slices w logs.new work.new) result }
    ensures ends { Ends home.tail home.fill (length words.now) result }
{
    let n = words.len() as u64;
    let buffer = home.buffer;
    let tail = home.tail;
    let fill = home.fill;
    if fill + n <= 64 {
        put_record(work, buffer + fill, words);
        return Some(Tip {
            tail,
            fill: fill + n,
        });
    }
    if !flush_disk(logs, work, home, budget) {
        return None;
    }
    put_record(work, buffer, words);
    Some(Tip {
        tail: tail + fill,
        fill: n,
    })
}

// Appends a closing record.
pub fn append_close(
    logs: &mut [u64],
    work: &mut [u64],
    home: Home,
    kind: u64,
    number: u64,
    budget: &mut u64,
) -> Option<Tip>
    requires { Within home logs.old work.old }
    ensures appends { (s : Sizes) (l : Logs) (w : World) → Lent s l w home logs.old work.old
        → Appends budget.old budget.new s l home.disk (encode (close kind number)) w (with_slices w logs.new work.new) result }
    ensures ends { Ends home.tail home.fill 2 result }
{
    let words = [kind, number];
    append(logs, work, home, &words, budget)
}

// Appends a change, whose difference is lent.
pub fn append_change(
    logs: &mut [u64],
    work: &mut [u64],
    home: Home,
    head: Head,
    difference: &[u64],
    budget: &mut u64,
) -> Option<Tip>
    requires { Within home logs.old work.old × Encodable head (length difference.now) }
    ensures appends { (s : Sizes) (l : Logs) (w : World) → Lent s l w home logs.old work.old
        → Appends budget.old budget.new s l home.disk (encode (change_of head difference.now)) w (with_slices w logs.new work.new) result }
    ensures ends { Ends home.tail home.fill (3 + length difference.now) result }
{
    let n = difference.len();
    let mut words = [0u64; 35];
    put_record(&mut words, 3, difference);
    encode_change(&mut words, head, n as u64);
    let size = words_of(head.kind, n as u64) as usize;
    append(logs, work, home, &words[..size], budget)
}
