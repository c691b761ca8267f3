// Checkpoint step: the lowest page not yet copied goes whole to the other backup and takes the checkpoint's number.
ghost use Rattle.std.specs.Prelude.{List, ℕ};
ghost use Rattle.model.specs.World.{world_of};
ghost use Rattle.model.specs.Checkpoint.{checkpoint_step_task};
ghost use Rattle.model.specs.Call.{checkpoint_step, Gives};
ghost use Rattle.frame.specs.Settle.{Concludes};
ghost use Rattle.checkpoint.specs.Lent.{Steppable};

use crate::copy::copy_page;
use frame::checks::check_common;
use frame::refusal::Refusal;
use frame::settle::{refuse, settle};
use frame::stages::When;
use model::{Checkpoint, Core, Reply};

// Copies the first page that waits.
fn copy_next(
    core: Core,
    pages: &[u64],
    backups: &mut [u64],
    work: &mut [u64],
    budget: &mut u64,
) -> Reply
    requires { Steppable core pages.now backups.old work.old }
    ensures { (anchor logs : List ℕ) → Concludes budget.old budget.new
        (checkpoint_step_task core (world_of anchor pages.now backups.old logs work.old))
        (world_of anchor pages.now backups.old logs work.old)
        (world_of anchor pages.now backups.new logs work.new) result }
{
    let before = *budget;
    let checkpoint = core.checkpoint;
    let page = checkpoint.copied;
    let whole = copy_page(
        core.sizes,
        core.epoch + 1,
        page,
        pages,
        backups,
        work,
        budget,
    );
    let next = Core {
        checkpoint: Checkpoint {
            copied: page + 1,
            ..checkpoint
        },
        ..core
    };
    settle(whole, before, *budget, 0, next)
}

pub fn step(
    core: Core,
    anchor: &[u64],
    pages: &[u64],
    backups: &mut [u64],
    logs: &[u64],
    work: &mut [u64],
    budget: &mut u64,
) -> Reply
    ensures { Gives (checkpoint_step budget.old) core (world_of anchor.now pages.now backups.old logs.now work.old)
        result budget.new (world_of anchor.now pages.now backups.new logs.now work.new) }
{
    if let Err(refusal) = check_common(When::Copying, core, anchor, pages, backups, logs, work) {
        return refuse(core, refusal);
    }
    if core.checkpoint.copied >= core.sizes.pages {
        return refuse(core, Refusal::OutOfTurn);
    }
    copy_next(core, pages, backups, work, budget)
}
