// A disk's log as its readers take it: its extent, and its buffered words in the work memory.
ghost use Rattle.std.specs.Prelude.{◌≡◌, ◌+◌, ◌*◌, ◌≤◌, ◌<◌, length};
ghost use Rattle.model.specs.Memory.{buffer_of};
ghost use Rattle.model.specs.State.{limit, tail_of, fill_of, end_of};
ghost use Rattle.disk_log.specs.Reading.{extent_of};
ghost use Rattle.abort.specs.Undo.{only_log};

use disk_log::read::{Extent, extent_of};
use disk_log::write::Tip;
use layout::memory::buffer_place;
use model::Sizes;

pub fn extent_at(sizes: Sizes, tip: Tip, disk: u64) -> Extent
    requires { (disk < 8) × (sizes.ring ≤ 65536) × (end_of (only_log disk tip) disk ≤ limit) }
    ensures { result ≡ extent_of sizes disk (tail_of (only_log disk tip) disk) (end_of (only_log disk tip) disk) }
{
    extent_of(sizes, disk, tip.tail, tip.tail + tip.fill)
}

pub fn buffered(tip: Tip, disk: u64, work: &[u64]) -> &[u64]
    requires { (disk < 8) × (fill_of (only_log disk tip) disk ≤ 64) × (64 * disk + 64 ≤ length work.now) }
    ensures { result.now ≡ buffer_of work.now disk (fill_of (only_log disk tip) disk) }
{
    let start = buffer_place(disk);
    let stop = start + tip.fill;
    &work[start as usize..stop as usize]
}
