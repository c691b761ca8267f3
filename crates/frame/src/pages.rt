// The pages by the words of the head: whether their sizes are within bounds and their kept bases right. The words may be any numbers, so
// each is compared before it is multiplied.
ghost use Rattle.std.specs.Prelude.{◌≡◌, true, ◌&&◌, ◌≤◌, length};
ghost use Rattle.model.specs.declared.Carried.{Carried};
ghost use Rattle.model.specs.Sizes.{counts_in_bounds, sizes_in_bounds};
ghost use Rattle.model.specs.State.{bases_right};
ghost use Rattle.model.specs.View.{head_words, own_work, core_of};
ghost use Rattle.frame.specs.Pages.{used_right, unused_right};

use head::places::{BASES_AT, SLOTS_AT, WIDTHS_AT};

// The pages below `end`: each within bounds, each begins where those before it end, and they end at T.
fn used_right(work: &[u64], end: usize, total: u64) -> bool
    requires { (end ≤ 64) × (head_words ≤ length work.now) }
    ensures { result ≡ used_right work.now end total }
{
    let mut sum: u64 = 0;
    for i in 0..end {
        let slots = work[SLOTS_AT + i];
        let width = work[WIDTHS_AT + i];
        if slots > 128 {
            return false;
        }
        if width > 32 {
            return false;
        }
        if work[BASES_AT + i] != sum {
            return false;
        }
        let words = slots * width;
        if words == 0 {
            return false;
        }
        if words > 128 {
            return false;
        }
        sum += words;
    }
    sum == total
}

// The entries from `from` on: no words, and T as their base.
fn unused_right(work: &[u64], from: usize, total: u64) -> bool
    requires { (from ≤ 64) × (head_words ≤ length work.now) }
    ensures { result ≡ unused_right work.now from total }
{
    for i in from..64 {
        if work[SLOTS_AT + i] != 0 {
            return false;
        }
        if work[WIDTHS_AT + i] != 0 {
            return false;
        }
        if work[BASES_AT + i] != total {
            return false;
        }
    }
    true
}

// P and T are the state's, and its counts are within bounds.
pub fn pages_right(work: &[u64], pages: u64, total: u64) -> bool
    requires { (pages ≤ 64) × (head_words ≤ length work.now) }
    ensures { (h : Carried) → own_work h work.now ≡ true → h.pages ≡ pages → h.total ≡ total
        → counts_in_bounds (core_of h work.now).sizes ≡ true
        → result ≡ (sizes_in_bounds (core_of h work.now).sizes && bases_right (core_of h work.now)) }
{
    let end = pages as usize;
    if !used_right(work, end, total) {
        return false;
    }
    unused_right(work, end, total)
}
