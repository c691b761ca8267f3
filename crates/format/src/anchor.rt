// What a format stores on the anchor before it stores anything elsewhere.
ghost use Rattle.std.specs.Prelude.{◌≡◌, List, ◌++◌, ℕ, length};
ghost use Rattle.model.specs.Anchor.{anchor_words};
ghost use Rattle.model.specs.World.{world_of};
ghost use Rattle.device.specs.Ran.{Ran};
ghost use Rattle.format.specs.Parts.{front_stores, array_stores};

use device::{store_copy, store_fill, store_word};
use layout::anchor::{EPOCH_WORD, ROWS_AT, RawSizes, SLOTS_AT, WIDTHS_AT};

// Number 0, so that the anchor reads as unformatted until all is stored; then words 0, 1 and 2. True if all are stored.
fn store_front(anchor: &mut [u64], pages: u64, disks: u64, ring: u64, budget: &mut u64) -> bool
    requires { length anchor.old ≡ anchor_words }
    ensures { (memory backups logs work : List ℕ) → Ran budget.old budget.new
        (front_stores pages disks ring)
        (world_of anchor.old memory backups logs work)
        (world_of anchor.new memory backups logs work) result }
{
    if !store_word(anchor, EPOCH_WORD, 0, budget) {
        return false;
    }
    let words = [pages, disks, ring];
    store_copy(anchor, 0, &words, 0, 3, budget)
}

// Both page arrays, and both rows 0; true if all are stored.
fn store_arrays(anchor: &mut [u64], slots: [u64; 64], widths: [u64; 64], budget: &mut u64) -> bool
    requires { length anchor.old ≡ anchor_words }
    ensures { (memory backups logs work : List ℕ) → Ran budget.old budget.new
        (array_stores slots widths)
        (world_of anchor.old memory backups logs work)
        (world_of anchor.new memory backups logs work) result }
{
    if !store_copy(anchor, SLOTS_AT, &slots, 0, 64, budget) {
        return false;
    }
    if !store_copy(anchor, WIDTHS_AT, &widths, 0, 64, budget) {
        return false;
    }
    store_fill(anchor, ROWS_AT, 16, 0, budget)
}

// The anchor but for its number; true if all is stored.
pub fn store_anchor(anchor: &mut [u64], raw: RawSizes, budget: &mut u64) -> bool
    requires { length anchor.old ≡ anchor_words }
    ensures { (memory backups logs work : List ℕ) → Ran budget.old budget.new
        (front_stores raw.pages raw.disks raw.ring ++ array_stores raw.slots raw.widths)
        (world_of anchor.old memory backups logs work)
        (world_of anchor.new memory backups logs work) result }
{
    if !store_front(anchor, raw.pages, raw.disks, raw.ring, budget) {
        return false;
    }
    store_arrays(anchor, raw.slots, raw.widths, budget)
}
