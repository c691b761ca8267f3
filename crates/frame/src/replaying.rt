// What a call tests of a replaying state, on the words of the head.
ghost use Rattle.std.specs.Prelude.{◌≡◌, true, ◌≤◌, length};
ghost use Rattle.model.specs.declared.Carried.{Carried};
ghost use Rattle.model.specs.Below.{all_below};
ghost use Rattle.model.specs.Sizes.{counts_in_bounds};
ghost use Rattle.model.specs.State.{replay_sound};
ghost use Rattle.model.specs.View.{head_words, own_work, core_of};
ghost use Rattle.frame.specs.Pages.{position_right};

use crate::pages::pages_right;
use head::places::{PAGE_AT, POSITIONS_AT};
use table::room::LIMIT;

// Every log's tail is within bounds, and its next position not past it.
fn positions_right(work: &[u64], disks: u64, tails: [u64; 8]) -> bool
    requires { (disks ≤ 8) × (head_words ≤ length work.now) }
    ensures { result ≡ all_below (position_right work.now tails) disks }
{
    for d in 0..disks as usize {
        let tail = tails[d];
        if LIMIT < tail {
            return false;
        }
        if tail < work[POSITIONS_AT + d] {
            return false;
        }
    }
    true
}

// P, D, T, c and the tails are the state's, and its counts are within bounds.
pub fn replay_right(
    work: &[u64],
    pages: u64,
    disks: u64,
    total: u64,
    epoch: u64,
    tails: [u64; 8],
) -> bool
    requires { (pages ≤ 64) × (disks ≤ 8) × (head_words ≤ length work.now) }
    ensures { (h : Carried) → own_work h work.now ≡ true → h.pages ≡ pages → h.disks ≡ disks → h.total ≡ total → h.epoch ≡ epoch
        → h.tails ≡ tails → counts_in_bounds (core_of h work.now).sizes ≡ true → result ≡ replay_sound (core_of h work.now) }
{
    if epoch >= LIMIT {
        return false;
    }
    if pages < work[PAGE_AT] {
        return false;
    }
    if !positions_right(work, disks, tails) {
        return false;
    }
    pages_right(work, pages, total)
}
