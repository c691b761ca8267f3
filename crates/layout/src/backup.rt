// Where the backups lie.
ghost use Rattle.std.specs.Prelude.{◌≡◌, ◌+◌, ◌*◌, ◌≤◌};
ghost use Rattle.model.specs.Sizes.{total};
ghost use Rattle.model.specs.Anchor.{backup_at};

use crate::places::total;
use model::Sizes;

// Where checkpoint `epoch` keeps the pages.
pub fn backup_at(sizes: Sizes, epoch: u64) -> u64
    requires { sizes.pages ≤ 64 }
    ensures { (result ≡ backup_at sizes epoch) × (result + total sizes ≤ 2 * total sizes) }
{
    let words = total(sizes);
    if epoch % 2 == 0 {
        return 0;
    }
    words
}
