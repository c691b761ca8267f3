// Every log becomes empty.
ghost use Rattle.std.specs.Prelude.{◌≡◌, true, List, ℕ, length};
ghost use Rattle.model.specs.Sizes.{log_words, sizes_in_bounds};
ghost use Rattle.model.specs.World.{world_of};
ghost use Rattle.device.specs.Ran.{Ran};
ghost use Rattle.format.specs.Parts.{tail_stores};

use device::store_word;
use layout::disks::disk_at;
use model::Sizes;

// Tail 0 on each disk; true if all are stored.
pub fn store_tails(sizes: Sizes, logs: &mut [u64], budget: &mut u64) -> bool
    requires { (sizes_in_bounds sizes ≡ true) × (length logs.old ≡ log_words sizes) }
    ensures { (anchor memory backups work : List ℕ) → Ran budget.old budget.new
        (tail_stores sizes)
        (world_of anchor memory backups logs.old work)
        (world_of anchor memory backups logs.new work) result }
{
    for d in 0..sizes.disks {
        let at = disk_at(sizes.ring, d) as usize;
        if !store_word(logs, at, 0, budget) {
            return false;
        }
    }
    true
}
