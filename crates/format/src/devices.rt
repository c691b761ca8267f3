// All stores of a format.
ghost use Rattle.std.specs.Prelude.{◌≡◌, List, ℕ, ◌+◌, ◌≤◌, length};
ghost use Rattle.model.specs.Sizes.{total};
ghost use Rattle.model.specs.Anchor.{anchor_words};
ghost use Rattle.model.specs.World.{world_of};
ghost use Rattle.model.specs.Format.{format_stores};
ghost use Rattle.layout.specs.Raw.{sizes_of};
ghost use Rattle.device.specs.Ran.{Ran};
ghost use Rattle.format.specs.Parts.{last_stores, Devices};

use crate::anchor::store_anchor;
use crate::tails::store_tails;
use device::{store_fill, store_word};
use layout::anchor::{EPOCH_WORD, RawSizes};
use model::Sizes;

// Backup 1 zero, then number 1, which makes it current; true if all are stored.
fn store_last(anchor: &mut [u64], backups: &mut [u64], words: u64, budget: &mut u64) -> bool
    requires { (length anchor.old ≡ anchor_words) × (words + words ≤ length backups.old) }
    ensures { (memory logs work : List ℕ) → Ran budget.old budget.new
        (last_stores words)
        (world_of anchor.old memory backups.old logs work)
        (world_of anchor.new memory backups.new logs work) result }
{
    let n = words as usize;
    if !store_fill(backups, n, n, 0, budget) {
        return false;
    }
    store_word(anchor, EPOCH_WORD, 1, budget)
}

// The list of stores, as far as the budget goes; true if all are made. `words` is T. The sizes come a second time as the words that
// are stored.
pub fn store_devices(
    sizes: Sizes,
    words: u64,
    raw: RawSizes,
    anchor: &mut [u64],
    backups: &mut [u64],
    logs: &mut [u64],
    budget: &mut u64,
) -> bool
    requires { Devices sizes anchor.old backups.old logs.old × (sizes ≡ sizes_of raw) × (words ≡ total sizes) }
    ensures { (memory work : List ℕ) → Ran budget.old budget.new
        (format_stores sizes)
        (world_of anchor.old memory backups.old logs.old work)
        (world_of anchor.new memory backups.new logs.new work) result }
{
    if !store_anchor(anchor, raw, budget) {
        return false;
    }
    if !store_tails(sizes, logs, budget) {
        return false;
    }
    store_last(anchor, backups, words, budget)
}
