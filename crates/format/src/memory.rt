// Fresh memory: zero pages, no owners, every copy number 1.
ghost use Rattle.std.specs.Prelude.{◌≡◌, true, List, ◌++◌, ℕ};
ghost use Rattle.model.specs.Sizes.{total};
ghost use Rattle.model.specs.World.{world_of};
ghost use Rattle.model.specs.Format.{fresh_memory};
ghost use Rattle.device.specs.Ran.{Ran};
ghost use Rattle.format.specs.Parts.{pages_zero, Memories};

use layout::memory::fresh_work;
use model::Sizes;
use words::fill_words;

// `words` is T.
pub fn make_fresh(sizes: Sizes, words: u64, pages: &mut [u64], work: &mut [u64])
    requires { Memories sizes pages.old work.old × (words ≡ total sizes) }
    ensures { (budget : ℕ) (anchor backups logs : List ℕ) → Ran budget budget (pages_zero sizes ++ fresh_memory sizes 1)
        (world_of anchor pages.old backups logs work.old)
        (world_of anchor pages.new backups logs work.new) true }
{
    let all = words as usize;
    fill_words(pages, 0, all, 0);
    fresh_work(work, sizes.disks, all, 1);
}
