// The first words of the pages, which a state keeps: made from the sizes, tested against them, and a slot's place by them.
ghost use Rattle.std.specs.Prelude.{◌≡◌, true, ◌&&◌, ◌+◌, ◌*◌, ◌≤◌, ◌<◌, eqb, get_or};
ghost use Rattle.model.specs.Below.{all_below};
ghost use Rattle.model.specs.Sizes.{page_base, total, sizes_in_bounds};
ghost use Rattle.model.specs.State.{bases_of};

use crate::places::words_in_slots;
use model::{Bases, Sizes};

// Pages that are not there have no words: so the sum of all 64 is T.
pub fn bases_of(sizes: Sizes) -> Bases
    requires { sizes_in_bounds sizes ≡ true }
    ensures { (result ≡ bases_of sizes) × (result.total ≤ 8192) }
{
    let slots = sizes.slots;
    let widths = sizes.widths;
    let mut pages = [0u16; 64];
    let mut sum: u16 = 0;
    for i in 0..64 {
        pages[i] = sum;
        sum += words_in_slots(slots[i], widths[i]);
    }
    Bases {
        pages,
        total: sum as u64,
    }
}

// Whether these are the bases of the sizes.
pub fn bases_right(sizes: Sizes, bases: Bases) -> bool
    requires { sizes_in_bounds sizes ≡ true }
    ensures { result ≡ (eqb bases.total (total sizes) && all_below (λ page. eqb (get_or bases.pages page 0) (page_base sizes page)) 64) }
{
    let slots = sizes.slots;
    let widths = sizes.widths;
    let pages = bases.pages;
    let mut sum: u16 = 0;
    for i in 0..64 {
        if pages[i] != sum {
            return false;
        }
        sum += words_in_slots(slots[i], widths[i]);
    }
    bases.total == sum as u64
}

// The first word of a slot, by that of its page.
pub fn slot_place(base: u16, slot: u64, width: u8) -> u64
    requires { slot < 128 }
    ensures { result ≡ base + slot * width }
{
    base as u64 + slot * width as u64
}
