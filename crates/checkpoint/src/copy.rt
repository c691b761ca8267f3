// A page goes to the backup of the checkpoint under way.
ghost use Rattle.std.specs.Prelude.{List, ℕ};
ghost use Rattle.model.specs.World.{world_of};
ghost use Rattle.device.specs.Ran.{Ran};
ghost use Rattle.checkpoint.specs.Lent.{Copyable, page_copied};

use device::store_copy;
use layout::backup::backup_at;
use layout::memory::copy_place;
use layout::places::{page_base, page_words};
use model::Sizes;

// Stores a page in the backup of checkpoint n, and gives it copy number n if all its words are stored; true if they are.
pub fn copy_page(
    sizes: Sizes,
    number: u64,
    page: u64,
    pages: &[u64],
    backups: &mut [u64],
    work: &mut [u64],
    budget: &mut u64,
) -> bool
    requires { Copyable sizes page pages.now backups.old work.old }
    ensures { (anchor logs : List ℕ) → Ran budget.old budget.new
        (page_copied sizes number page pages.now)
        (world_of anchor pages.now backups.old logs work.old)
        (world_of anchor pages.now backups.new logs work.new) result }
{
    let base = page_base(sizes, page);
    let words = page_words(sizes, page);
    let backup = backup_at(sizes, number);
    if !store_copy(
        backups,
        (backup + base) as usize,
        pages,
        base as usize,
        words as usize,
        budget,
    ) {
        return false;
    }
    let at = copy_place(sizes.disks, page);
    work[at] = number;
    true
}
