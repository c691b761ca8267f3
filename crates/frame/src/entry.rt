// An open transaction, as the head of the work memory has it: its place in the table, and its disk.
ghost use Rattle.std.specs.Prelude.{◌≡◌, true, cond, ◌≤◌, eqb, length};
ghost use Rattle.model.specs.declared.Carried.{Carried};
ghost use Rattle.model.specs.View.{head_words, own_work, core_of};
ghost use Rattle.frame.specs.Entry.{Entered, AfterAnchor};
ghost use Rattle.frame.specs.Refusal.{number_of};

use crate::fits::place_fits;
use crate::refusal::Refusal;
use head::places::{DISKS_AT, FILLS_AT, RESERVED_AT, SUMS_AT};
use head::table::place_of;
use layout::anchor::ANCHOR_WORDS;

// Its place in the table, the words reserved for it, its disk with tail and fill, and the words reserved there.
#[derive(Clone, Copy)]
pub struct Entry {
    pub place: usize,
    pub reserved: u64,
    pub disk: u64,
    pub tail: u64,
    pub fill: u64,
    pub sum: u64,
}

// Row 9, and what row 1 asks of a transaction that is open. D and the tails are the state's.
pub fn find_entry(work: &[u64], disks: u64, tails: &[u64], number: u64) -> Result<Entry, Refusal>
    requires { (disks ≤ 8) × (head_words ≤ length work.now) × (length tails.now ≡ 8) }
    ensures { (h : Carried) → own_work h work.now ≡ true → h.disks ≡ disks → h.tails ≡ tails.now
        → Entered (core_of h work.now) number result }
{
    if number == 0 {
        return Err(Refusal::NotOpen);
    }
    let Some(place) = place_of(work, number) else {
        return Err(Refusal::NotOpen);
    };
    let disk = work[DISKS_AT + place];
    if disk >= disks {
        return Err(Refusal::Stage);
    }
    let d = disk as usize;
    let tail = tails[d];
    let fill = work[FILLS_AT + d];
    let sum = work[SUMS_AT + d];
    let reserved = work[RESERVED_AT + place];
    if !place_fits(disks, disk, tail, fill, reserved, sum) {
        return Err(Refusal::Stage);
    }
    Ok(Entry {
        place,
        reserved,
        disk,
        tail,
        fill,
        sum,
    })
}

// What refuses where the anchor's length is wrong, by what refuses where it is right.
fn before_anchor(otherwise: Refusal) -> Refusal
    ensures { number_of result ≡ cond (eqb (number_of otherwise) 1) 1 2 }
{
    match otherwise {
        Refusal::Stage => Refusal::Stage,
        _ => Refusal::AnchorLength,
    }
}

// Rows 1, 2 and 9, where the lengths other than the anchor's are right: row 1 comes before the anchor's length, and row 9 after it.
pub fn after_anchor<T: Copy>(found: Result<T, Refusal>, anchor: usize) -> Result<T, Refusal>
    ensures { AfterAnchor found anchor result }
{
    if anchor == ANCHOR_WORDS {
        return found;
    }
    match found {
        Err(refusal) => Err(before_anchor(refusal)),
        Ok(_) => Err(Refusal::AnchorLength),
    }
}
