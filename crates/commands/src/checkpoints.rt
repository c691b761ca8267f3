// The three commands of a checkpoint.
ghost use Rattle.model.specs.World.{world_of};
ghost use Rattle.lines.specs.declared.command.Command.TheVariants.{Mark, Copy, Close};
ghost use Rattle.commands.specs.Meaning.{Runs};

use crate::outcome::{Done, done_of};
use store::State;

pub fn run_mark(
    state: State,
    anchor: &[u64],
    pages: &[u64],
    backups: &[u64],
    logs: &[u64],
    work: &mut [u64],
) -> Done
    ensures { Runs Mark state.carried (world_of anchor.now pages.now backups.now logs.now work.old)
        result (world_of anchor.now pages.now backups.now logs.now work.new) }
{
    let called = store::checkpoints::checkpoint_begin(state, anchor, pages, backups, logs, work);
    done_of(called, 0)
}

pub fn run_copy(
    state: State,
    anchor: &[u64],
    pages: &[u64],
    backups: &mut [u64],
    logs: &[u64],
    work: &mut [u64],
) -> Done
    ensures { Runs Copy state.carried (world_of anchor.now pages.now backups.old logs.now work.old)
        result (world_of anchor.now pages.now backups.new logs.now work.new) }
{
    let mut budget = u64::MAX;
    let called = store::checkpoints::checkpoint_step(
        state,
        anchor,
        pages,
        backups,
        logs,
        work,
        &mut budget,
    );
    done_of(called, 0)
}

pub fn run_close(
    state: State,
    anchor: &mut [u64],
    pages: &[u64],
    backups: &[u64],
    logs: &mut [u64],
    work: &mut [u64],
) -> Done
    ensures { Runs Close state.carried (world_of anchor.old pages.now backups.now logs.old work.old)
        result (world_of anchor.new pages.now backups.now logs.new work.new) }
{
    let mut budget = u64::MAX;
    let called = store::checkpoints::checkpoint_end(
        state,
        anchor,
        pages,
        backups,
        logs,
        work,
        &mut budget,
    );
    done_of(called, 0)
}
