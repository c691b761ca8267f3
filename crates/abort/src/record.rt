// A record appended to a disk's log, and where the log ends after it; None: the budget ran out before all stores were made.
ghost use Rattle.std.specs.Prelude.{List, ℕ, length};
ghost use Rattle.model.specs.Record.{change, close, encode, compensation_kind, abort_kind};
ghost use Rattle.model.specs.World.{world_of};
ghost use Rattle.model.specs.Memory.{copy_of};
ghost use Rattle.model.specs.Append.{append};
ghost use Rattle.abort.specs.Undo.{only_log, Serving, InSlot, Did};

use disk_log::kinds::{ABORT, COMPENSATION};
use disk_log::write::{Head, Tip, append_change, append_close};
use frame::home::home_at;
use layout::memory::page_copy;
use model::Sizes;

// Appends the compensation of an update, with the page's present copy number.
pub fn log_compensation(
    sizes: Sizes,
    tip: Tip,
    disk: u64,
    number: u64,
    page: u64,
    slot: u64,
    difference: &[u64],
    logs: &mut [u64],
    work: &mut [u64],
    budget: &mut u64,
) -> Option<Tip>
    requires serving { Serving sizes (only_log disk tip) disk logs.old work.old }
    requires in_slot { InSlot sizes page slot (length difference.now) }
    ensures { (anchor pages backups : List ℕ) → Did disk budget.old budget.new
        (append sizes (only_log disk tip) work.old disk (encode (change compensation_kind page slot number (copy_of sizes work.old page) difference.now)))
        (world_of anchor pages backups logs.old work.old) (world_of anchor pages backups logs.new work.new) result }
{
    let home = home_at(sizes.ring, disk, tip.tail, tip.fill);
    let head = Head {
        kind: COMPENSATION,
        page,
        slot,
        number,
        copy: page_copy(sizes.disks, work, page),
    };
    append_change(logs, work, home, head, difference, budget)
}

// Appends the closing record of an abort.
pub fn log_close(
    sizes: Sizes,
    tip: Tip,
    disk: u64,
    number: u64,
    logs: &mut [u64],
    work: &mut [u64],
    budget: &mut u64,
) -> Option<Tip>
    requires { Serving sizes (only_log disk tip) disk logs.old work.old }
    ensures { (anchor pages backups : List ℕ) → Did disk budget.old budget.new
        (append sizes (only_log disk tip) work.old disk (encode (close abort_kind number)))
        (world_of anchor pages backups logs.old work.old) (world_of anchor pages backups logs.new work.new) result }
{
    let home = home_at(sizes.ring, disk, tip.tail, tip.fill);
    append_close(logs, work, home, ABORT, number, budget)
}
