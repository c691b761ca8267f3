// A checkpoint becomes the current one: what the end of a checkpoint and the end of a restart store last.
ghost use Rattle.std.specs.Prelude.{◌≡◌, List, ℕ, ◌≤◌, length, take};
ghost use Rattle.model.specs.Anchor.{anchor_words};
ghost use Rattle.model.specs.World.{world_of};
ghost use Rattle.device.specs.Ran.{Ran};
ghost use Rattle.frame.specs.Switch.{starts_stored};

use device::{store_copy, store_word};
use layout::anchor::{EPOCH_WORD, ROWS_AT};

// Stores the starts of the disks in the row of checkpoint n, then its number; true if all are stored.
pub fn switch_to(
    anchor: &mut [u64],
    number: u64,
    disks: u64,
    starts: [u64; 8],
    budget: &mut u64,
) -> bool
    requires { (length anchor.old ≡ anchor_words) × (disks ≤ 8) }
    ensures { (pages backups logs work : List ℕ) → Ran budget.old budget.new
        (starts_stored number (take disks starts))
        (world_of anchor.old pages backups logs work)
        (world_of anchor.new pages backups logs work) result }
{
    let row = ROWS_AT + 8 * (number % 2) as usize;
    if !store_copy(anchor, row, &starts, 0, disks as usize, budget) {
        return false;
    }
    store_word(anchor, EPOCH_WORD, number, budget)
}
