// All buffers go to their disks.
ghost use Rattle.std.specs.Prelude.{List, ℕ};
ghost use Rattle.model.specs.Below.{join_below};
ghost use Rattle.model.specs.World.{world_of};
ghost use Rattle.model.specs.Append.{flush};
ghost use Rattle.device.specs.Ran.{Ran};
ghost use Rattle.frame.specs.Home.{Serves};

use disk_log::write::flush_disk;
use frame::home::home_of;
use model::Core;

// Flushes the disks in order; true if all are flushed.
pub fn flush_all(core: Core, logs: &mut [u64], work: &[u64], budget: &mut u64) -> bool
    requires { Serves core logs.old work.now }
    ensures { (anchor pages backups : List ℕ) → Ran budget.old budget.new
        (join_below (flush core.sizes core.logs work.now) core.sizes.disks)
        (world_of anchor pages backups logs.old work.now)
        (world_of anchor pages backups logs.new work.now) result }
{
    let sizes = core.sizes;
    let state = core.logs;
    for d in 0..sizes.disks {
        let home = home_of(sizes, state, d);
        if !flush_disk(logs, work, home, budget) {
            return false;
        }
    }
    true
}
