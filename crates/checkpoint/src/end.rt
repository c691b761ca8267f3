// Checkpoint end: the disks are flushed, the new starts go to the other row, and the checkpoint's number makes it current.
ghost use Rattle.std.specs.Prelude.{◌≡◌, true, List, ℕ, ◌<◌};
ghost use Rattle.model.specs.World.{World, world_of};
ghost use Rattle.model.specs.State.{limit, serving_sound};
ghost use Rattle.model.specs.Checkpoint.{per_disk, new_start, checkpoint_end_task};
ghost use Rattle.model.specs.Call.{checkpoint_end, Gives};
ghost use Rattle.frame.specs.Settle.{Concludes};
ghost use Rattle.checkpoint.specs.Lent.{Endable};

use crate::ends::ends_of;
use crate::flush::flush_all;
use crate::starts::new_starts;
use frame::checks::check_common;
use frame::refusal::Refusal;
use frame::settle::{refuse, settle};
use frame::stages::When;
use frame::states::no_checkpoint;
use frame::switch::switch_to;
use model::{Core, Logs, Reply, Stage};

// The state after the checkpoint.
fn closed(core: Core, starts: [u64; 8]) -> Core
    requires { (serving_sound core ≡ true) × (core.epoch < limit) × (starts ≡ per_disk core.sizes (new_start core)) }
    ensures { (w : World) → result ≡ (checkpoint_end_task core w).core }
{
    let tails = ends_of(core);
    Core {
        stage: Stage::Open,
        epoch: core.epoch + 1,
        logs: Logs {
            starts,
            tails,
            fills: [0u64; 8],
        },
        checkpoint: no_checkpoint(),
        ..core
    }
}

// The new starts, the stores, and the reply.
fn flush_and_switch(
    core: Core,
    anchor: &mut [u64],
    logs: &mut [u64],
    work: &[u64],
    budget: &mut u64,
) -> Reply
    requires { Endable core anchor.old logs.old work.now }
    ensures { (pages backups : List ℕ) → Concludes budget.old budget.new
        (checkpoint_end_task core (world_of anchor.old pages backups logs.old work.now))
        (world_of anchor.old pages backups logs.old work.now)
        (world_of anchor.new pages backups logs.new work.now) result }
{
    let before = *budget;
    let starts = new_starts(core);
    let whole = flush_all(core, logs, work, budget)
        && switch_to(anchor, core.epoch + 1, core.sizes.disks, starts, budget);
    settle(whole, before, *budget, 0, closed(core, starts))
}

pub fn end(
    core: Core,
    anchor: &mut [u64],
    pages: &[u64],
    backups: &[u64],
    logs: &mut [u64],
    work: &[u64],
    budget: &mut u64,
) -> Reply
    ensures { Gives (checkpoint_end budget.old) core (world_of anchor.old pages.now backups.now logs.old work.now)
        result budget.new (world_of anchor.new pages.now backups.now logs.new work.now) }
{
    if let Err(refusal) = check_common(When::Copying, core, anchor, pages, backups, logs, work) {
        return refuse(core, refusal);
    }
    if core.checkpoint.copied < core.sizes.pages {
        return refuse(core, Refusal::OutOfTurn);
    }
    flush_and_switch(core, anchor, logs, work, budget)
}
