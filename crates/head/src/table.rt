// The table of open transactions and the logs' fills in the head.
ghost use Rattle.std.specs.Prelude.{◌≡◌, MatchOption, IfSome, true, ◌≤◌, ◌<◌, length};
ghost use Rattle.model.specs.declared.Carried.{Carried};
ghost use Rattle.model.specs.State.{places, place_of, is_open};
ghost use Rattle.model.specs.View.{head_words, own_work, core_of};
ghost use Rattle.model.specs.Fields.{put_words, entering, leaving, filling};

use crate::places::{DISKS_AT, FILLS_AT, FIRSTS_AT, NUMBERS_AT, RESERVED_AT, SUMS_AT};

// The place of a transaction; for 0, the lowest free place.
pub fn place_of(work: &[u64], number: u64) -> Option<usize>
    requires { head_words ≤ length work.now }
    ensures low { IfSome result (λ place. place < places) }
    ensures found { (h : Carried) → own_work h work.now ≡ true
        → MatchOption result (place_of (core_of h work.now).table number ≡ places) (λ place. place ≡ place_of (core_of h work.now).table number) }
{
    for i in 0..16 {
        if work[NUMBERS_AT + i] == number {
            return Some(i);
        }
    }
    None
}

pub fn is_open(work: &[u64], number: u64) -> bool
    requires { head_words ≤ length work.now }
    ensures { (h : Carried) → own_work h work.now ≡ true → result ≡ is_open (core_of h work.now).table number }
{
    number != 0 && place_of(work, number).is_some()
}

// Fills a place of the table; `sum` words are reserved on its disk.
pub fn enter(
    work: &mut [u64],
    place: usize,
    number: u64,
    disk: usize,
    first: u64,
    reserved: u64,
    sum: u64,
)
    requires { (place < places) × (disk < 8) × (head_words ≤ length work.old) }
    ensures { work.new ≡ put_words (entering place number disk first reserved sum) work.old }
{
    work[NUMBERS_AT + place] = number;
    work[DISKS_AT + place] = disk as u64;
    work[FIRSTS_AT + place] = first;
    work[RESERVED_AT + place] = reserved;
    work[SUMS_AT + disk] = sum;
}

// Frees a place of the table; `sum` words stay reserved on its disk.
pub fn leave(work: &mut [u64], place: usize, disk: usize, sum: u64)
    requires { (place < places) × (disk < 8) × (head_words ≤ length work.old) }
    ensures { work.new ≡ put_words (leaving place disk sum) work.old }
{
    work[NUMBERS_AT + place] = 0;
    work[DISKS_AT + place] = 0;
    work[FIRSTS_AT + place] = 0;
    work[RESERVED_AT + place] = 0;
    work[SUMS_AT + disk] = sum;
}

// Sets how many words are buffered on a disk.
pub fn set_fill(work: &mut [u64], disk: usize, fill: u64)
    requires { (disk < 8) × (head_words ≤ length work.old) }
    ensures { work.new ≡ put_words (filling disk fill) work.old }
{
    work[FILLS_AT + disk] = fill;
}
