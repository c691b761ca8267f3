// What restart end stores.
ghost use Rattle.std.specs.Prelude.{◌≡◌, List, true, ℕ, ◌*◌, length};
ghost use Rattle.model.specs.Sizes.{total, sizes_in_bounds};
ghost use Rattle.model.specs.Anchor.{anchor_words};
ghost use Rattle.model.specs.World.{world_of};
ghost use Rattle.device.specs.Ran.{Ran};
ghost use Rattle.replay.specs.Parts.{checkpoint_stores};

use device::store_copy;
use frame::switch::switch_to;
use layout::backup::backup_at;
use model::Sizes;

// Stores all pages in the backup of checkpoint `epoch`, then makes it current: the stores of restart end. True if all are stored.
pub fn store_checkpoint(
    sizes: Sizes,
    epoch: u64,
    starts: [u64; 8],
    anchor: &mut [u64],
    pages: &[u64],
    backups: &mut [u64],
    budget: &mut u64,
) -> bool
    requires { (sizes_in_bounds sizes ≡ true) × (length anchor.old ≡ anchor_words) × (length pages.now ≡ total sizes) × (length backups.old ≡ 2 * total sizes) }
    ensures { (logs work : List ℕ) → Ran budget.old budget.new (checkpoint_stores sizes epoch starts pages.now)
        (world_of anchor.old pages.now backups.old logs work) (world_of anchor.new pages.now backups.new logs work) result }
{
    let at = backup_at(sizes, epoch) as usize;
    if !store_copy(backups, at, pages, 0, pages.len(), budget) {
        return false;
    }
    switch_to(anchor, epoch, sizes.disks, starts, budget)
}
