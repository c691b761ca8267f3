// What remains of a restart's sources: words of the logs, pages of the backup.
ghost use Rattle.std.specs.Prelude.{◌≡◌, true, cond, ◌+◌, ◌-◌, ◌≤◌, ◌<◌, eqb, length, get_or};
ghost use Rattle.model.specs.Below.{all_below};
ghost use Rattle.model.specs.Restart.{remaining};
ghost use Rattle.model.specs.View.{head_words, core_of};

use head::own::is_own;
use head::places::{PAGE_AT, POSITIONS_AT};
use model::{Carried, Core};

// A word of the head; 0 where the work memory is not the state's own.
fn head_word(own: bool, work: &[u64], at: usize) -> u64
    requires { (at < head_words) × (own ≡ true → head_words ≤ length work.now) }
    ensures { result ≡ cond own (get_or work.now at 0) 0 }
{
    if own { work[at] } else { 0 }
}

// Of any state: a state that no call made may name more than eight disks.
pub fn remaining(carried: Carried, source: u64, work: &[u64]) -> u64
    ensures { result ≡ remaining (core_of carried work.now) source }
{
    let own = is_own(carried.stage, carried.disks, carried.total, work.len());
    if source < carried.disks {
        if source >= 8 {
            return 0;
        }
        let d = source as usize;
        return carried.tails[d].saturating_sub(head_word(own, work, POSITIONS_AT + d));
    }
    if source == carried.disks {
        return carried.pages.saturating_sub(head_word(own, work, PAGE_AT));
    }
    0
}

fn logs_done(disks: u64, tails: [u64; 8], positions: [u64; 8]) -> bool
    requires { disks ≤ 8 }
    ensures { result ≡ all_below (λ d. eqb (get_or tails d 0 - get_or positions d 0) 0) disks }
{
    for d in 0..disks as usize {
        if positions[d] < tails[d] {
            return false;
        }
    }
    true
}

// Whether nothing remains of any source.
pub fn is_done(core: Core) -> bool
    requires { core.sizes.disks ≤ 8 }
    ensures { result ≡ all_below (λ i. eqb (remaining core i) 0) (core.sizes.disks + 1) }
{
    logs_done(core.sizes.disks, core.logs.tails, core.replay.positions)
        && core.sizes.pages <= core.replay.page
}
