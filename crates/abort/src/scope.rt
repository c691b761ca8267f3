// What an abort reads of the head: its transaction's entry, the log that it reads, and the sizes; all that row 1 tests of them.
ghost use Rattle.std.specs.Prelude.{◌≡◌, true, not, ◌||◌, ◌+◌, ◌-◌, ◌≤◌, leb, ltb, length};
ghost use Rattle.model.specs.State.{limit};
ghost use Rattle.model.specs.View.{head_words, own_work, core_of};
ghost use Rattle.abort.specs.Scope.{scope_in, Read};

use frame::entry::{Entry, find_entry};
use frame::refusal::Refusal;
use frame::sizes::known_sizes;
use head::places::FIRSTS_AT;
use model::{Carried, Sizes};
use table::place::CLOSE_WORDS;

// The disk, where the log is read from, the first position, and how many words of updates are reserved.
#[derive(Clone, Copy)]
pub struct Scope {
    pub disk: u64,
    pub from: u64,
    pub first: u64,
    pub words: u64,
}

// A transaction's entry, what of its log is read, and the sizes.
#[derive(Clone, Copy)]
pub struct Target {
    pub entry: Entry,
    pub scope: Scope,
    pub sizes: Sizes,
}

// The log from the first position on and the reserved words are no longer than the ring.
fn log_fits(end: u64, first: u64, reserved: u64, ring: u64) -> bool
    requires { (end ≤ limit) × (reserved ≤ limit) }
    ensures { result ≡ (not (ltb 2 reserved) || leb (end - first + reserved) ring) }
{
    if reserved <= CLOSE_WORDS {
        return true;
    }
    end.saturating_sub(first) + reserved <= ring
}

// One with no update has nothing to read.
fn scope_at(entry: Entry, first: u64) -> Scope
    requires { (2 ≤ entry.reserved) × (entry.tail + entry.fill ≤ limit) }
    ensures { result ≡ scope_in entry first }
{
    let disk = entry.disk;
    let words = entry.reserved - CLOSE_WORDS;
    if words == 0 {
        let from = entry.tail + entry.fill;
        return Scope {
            disk,
            from,
            first,
            words,
        };
    }
    Scope {
        disk,
        from: first,
        first,
        words,
    }
}

// Row 9, and what row 1 asks of a transaction that is open. The work memory is the state's own.
pub fn find_scope(carried: &Carried, work: &[u64], number: u64) -> Result<Target, Refusal>
    requires { (own_work carried.now work.now ≡ true) × (carried.now.disks ≤ 8) × (head_words ≤ length work.now) }
    ensures { Read (core_of carried.now work.now) number result }
{
    let disks = carried.disks;
    let ring = carried.ring;
    let entry = find_entry(work, disks, &carried.tails, number)?;
    let first = work[FIRSTS_AT + entry.place];
    if !log_fits(entry.tail + entry.fill, first, entry.reserved, ring) {
        return Err(Refusal::Stage);
    }
    let Some(sizes) = known_sizes(work, carried.pages, disks, ring, carried.total) else {
        return Err(Refusal::Stage);
    };
    let scope = scope_at(entry, first);
    Ok(Target {
        entry,
        scope,
        sizes,
    })
}
