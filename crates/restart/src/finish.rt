// Restart end: the replayed pages become checkpoint c + 1, and the state opens.
ghost use Rattle.std.specs.Prelude.{◌≡◌, List, ℕ, ◌*◌, length};
ghost use Rattle.model.specs.Sizes.{total};
ghost use Rattle.model.specs.Anchor.{anchor_words};
ghost use Rattle.model.specs.World.{world_of};
ghost use Rattle.model.specs.Memory.{work_words};
ghost use Rattle.model.specs.Restart.{restart_end_task};
ghost use Rattle.model.specs.Call.{Gives, restart_end};
ghost use Rattle.frame.specs.Settle.{Concludes};
ghost use Rattle.replay.specs.Step.{Replays};

use crate::remain::is_done;
use frame::checks::check_common;
use frame::refusal::Refusal;
use frame::settle::{refuse, settle};
use frame::stages::When;
use frame::states::open_core;
use layout::memory::fresh_work;
use model::{Core, Reply};
use replay::save::store_checkpoint;

// The stores of restart end, and fresh memory once all are made.
fn open_replayed(
    core: Core,
    anchor: &mut [u64],
    pages: &[u64],
    backups: &mut [u64],
    work: &mut [u64],
    budget: &mut u64,
) -> Reply
    requires { Replays core × (length anchor.old ≡ anchor_words) × (length pages.now ≡ total core.sizes) × (length backups.old ≡ 2 * total core.sizes) × (length work.old ≡ work_words core.sizes (total core.sizes)) }
    ensures { (logs : List ℕ) → Concludes budget.old budget.new
        (restart_end_task core (world_of anchor.old pages.now backups.old logs work.old))
        (world_of anchor.old pages.now backups.old logs work.old) (world_of anchor.new pages.now backups.new logs work.new) result }
{
    let sizes = core.sizes;
    let tails = core.logs.tails;
    let epoch = core.epoch + 1;
    let before = *budget;
    let opened = open_core(sizes, core.bases, epoch, tails);
    if !store_checkpoint(sizes, epoch, tails, anchor, pages, backups, budget) {
        return settle(false, before, *budget, epoch, opened);
    }
    fresh_work(work, sizes.disks, core.bases.total as usize, epoch);
    settle(true, before, *budget, epoch, opened)
}

pub fn end(
    core: Core,
    anchor: &mut [u64],
    pages: &[u64],
    backups: &mut [u64],
    logs: &[u64],
    work: &mut [u64],
    budget: &mut u64,
) -> Reply
    ensures { Gives (restart_end budget.old) core (world_of anchor.old pages.now backups.old logs.now work.old)
        result budget.new (world_of anchor.new pages.now backups.new logs.now work.new) }
{
    if let Err(refusal) = check_common(When::Replaying, core, anchor, pages, backups, logs, work) {
        return refuse(core, refusal);
    }
    if !is_done(core) {
        return refuse(core, Refusal::OutOfTurn);
    }
    open_replayed(core, anchor, pages, backups, work, budget)
}
