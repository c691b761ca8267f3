// A slot: whether it is there and where it lies, by the head of the work memory; and who holds it.
ghost use Rattle.std.specs.Prelude.{◌≡◌, true, not, ◌&&◌, ℕ, ◌+◌, ◌*◌, ◌≤◌, ◌<◌, eqb, length, drop};
ghost use Rattle.model.specs.declared.Carried.{Carried};
ghost use Rattle.model.specs.Word.{part};
ghost use Rattle.model.specs.Memory.{buffer_at, owner_of};
ghost use Rattle.model.specs.State.{in_table};
ghost use Rattle.model.specs.Causes.{reader_not_open};
ghost use Rattle.model.specs.View.{head_words, own_work, core_of};
ghost use Rattle.frame.specs.Fits.{page_within};
ghost use Rattle.frame.specs.Refusal.{row_in};
ghost use Rattle.access.specs.Slots.{Finds};

use frame::refusal::Refusal;
use head::places::{BASES_AT, HEAD_WORDS, SLOTS_AT, WIDTHS_AT};
use head::table::is_open;
use layout::memory::owner_place;

// Its first word in the page memory, and its width.
#[derive(Clone, Copy)]
pub struct Slot {
    pub at: usize,
    pub width: usize,
}

// Row 1 refuses it. That is asked before the anchor's length, and what else refuses it behind.
pub fn fails_state<T: Copy>(asked: Result<T, Refusal>) -> bool
    ensures { result ≡ eqb (row_in asked) 1 }
{
    matches!(asked, Err(Refusal::Stage))
}

// A page of any numbers. A product of 1 or more has both its factors 1 or more.
fn page_fits(slots: u64, width: u64, base: u64, total: u64) -> bool
    requires { total ≤ 8192 }
    ensures { result ≡ page_within slots width base total }
{
    if slots > 128 || width > 32 || base > total {
        return false;
    }
    let words = slots * width;
    if words == 0 || words > 128 {
        return false;
    }
    base + words <= total
}

// Row 8, and what row 1 asks of the page of a slot that is there; P and T are the state's.
pub fn find_slot(
    work: &[u64],
    pages: u64,
    total: u64,
    page: u64,
    slot: u64,
) -> Result<Slot, Refusal>
    requires { (pages ≤ 64) × (total ≤ 8192) × (head_words ≤ length work.now) }
    ensures { (h : Carried) → own_work h work.now ≡ true → h.pages ≡ pages → h.total ≡ total
        → Finds (core_of h work.now) page slot result }
{
    if page >= pages {
        return Err(Refusal::OutOfRange);
    }
    let i = page as usize;
    let slots = work[SLOTS_AT + i];
    if slot >= slots {
        return Err(Refusal::OutOfRange);
    }
    let width = work[WIDTHS_AT + i];
    let base = work[BASES_AT + i];
    if !page_fits(slots, width, base, total) {
        return Err(Refusal::Stage);
    }
    Ok(Slot {
        at: (base + slot * width) as usize,
        width: width as usize,
    })
}

// Held by a transaction other than this one; D is the state's.
pub fn is_locked(work: &[u64], disks: u64, at: usize, number: u64) -> bool
    requires { (disks ≤ 8) × (at < 8192) × (head_words + (buffer_at disks + 64 + at) < length work.now) }
    ensures { (h : Carried) → own_work h work.now ≡ true → h.disks ≡ disks
        → result ≡ (in_table (core_of h work.now).table (owner_of (core_of h work.now).sizes (drop head_words work.now) at)
        && not (eqb (owner_of (core_of h work.now).sizes (drop head_words work.now) at) number)) }
{
    let owner = work[HEAD_WORDS + owner_place(disks, at)];
    owner != number && is_open(work, owner)
}

// A reader with a number that is not open; reader 0 has no transaction.
pub fn reader_missing(work: &[u64], reader: u64) -> bool
    requires { head_words ≤ length work.now }
    ensures { (h : Carried) → own_work h work.now ≡ true → result ≡ reader_not_open (core_of h work.now) reader }
{
    reader != 0 && !is_open(work, reader)
}

// The slot's words in the page memory.
pub fn slot_part<'a>(pages: &'a [u64], at: usize, width: usize) -> &'a [u64]
    requires { at + width ≤ length pages.now }
    ensures { result.now ≡ part at width pages.now }
{
    &pages[at..at + width]
}
