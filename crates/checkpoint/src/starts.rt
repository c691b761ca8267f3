// Where the logs start once a checkpoint ends.
ghost use Rattle.std.specs.Prelude.{◌≡◌, ◌≤◌};
ghost use Rattle.model.specs.State.{places};
ghost use Rattle.model.specs.Checkpoint.{per_disk, least_first, new_start};

use model::{Core, Table};
use table::place::CLOSE_WORDS;

// The remembered end, or the first record of a transaction of that disk still open, if that is smaller.
fn least_first(table: Table, disk: u64, remembered: u64) -> u64
    ensures { result ≡ least_first table disk remembered places }
{
    let mut least = remembered;
    for i in 0..16 {
        if table.numbers[i] != 0 && table.disks[i] == disk && CLOSE_WORDS < table.reserved[i] {
            least = least.min(table.firsts[i]);
        }
    }
    least
}

// Each disk's new start; 0 from D on.
pub fn new_starts(core: Core) -> [u64; 8]
    requires { core.sizes.disks ≤ 8 }
    ensures { result ≡ per_disk core.sizes (new_start core) }
{
    let table = core.table;
    let checkpoint = core.checkpoint;
    let mut starts = [0u64; 8];
    for d in 0..core.sizes.disks as usize {
        starts[d] = least_first(table, d as u64, checkpoint.ends[d]);
    }
    starts
}
