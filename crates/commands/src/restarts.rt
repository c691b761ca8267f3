// A restart: each source to its end, then the end of the restart. It stops at its first refusal.
ghost use Rattle.std.specs.Prelude.{◌≡◌};
ghost use Rattle.model.specs.World.{world_of};
ghost use Rattle.model.specs.View.{core_of, body_of};
ghost use Rattle.lines.specs.declared.command.Command.TheVariants.{Restart};
ghost use Rattle.commands.specs.Restarting.{to_end, replayed_all, given};
ghost use Rattle.commands.specs.Meaning.{Runs};

use crate::outcome::{Done, done_of, is_finished, value_of};
use store::{Called, State};

// Takes a source to its end by one run: what remains of it, which the store tells, is steps enough.
fn replay(
    begun: Called,
    source: u64,
    anchor: &[u64],
    pages: &mut [u64],
    backups: &[u64],
    logs: &[u64],
    work: &mut [u64],
) -> Called
    ensures { given result (world_of anchor.now pages.new backups.now logs.now work.new)
        ≡ to_end source (given begun (world_of anchor.now pages.old backups.now logs.now work.old)) }
{
    if !is_finished(begun.answer) {
        return begun;
    }
    let left = store::restarts::restart_remaining(begun.state, source, work);
    if left == 0 {
        return begun;
    }
    store::restarts::restart_run(
        begun.state,
        source,
        left,
        anchor,
        pages,
        backups,
        logs,
        work,
    )
}

// The pages as the backup and the logs give them: source 0 to its end, then 1, then the backup.
fn replay_all(
    state: State,
    anchor: &[u64],
    pages: &mut [u64],
    backups: &[u64],
    logs: &[u64],
    work: &mut [u64],
) -> Called
    ensures { given result (world_of anchor.now pages.new backups.now logs.now work.new)
        ≡ replayed_all (core_of state.carried work.old) (body_of (world_of anchor.now pages.old backups.now logs.now work.old)) }
{
    let begun = store::restarts::restart_begin(state, anchor, pages, backups, logs, work);
    let first = replay(begun, 0, anchor, pages, backups, logs, work);
    let second = replay(first, 1, anchor, pages, backups, logs, work);
    replay(second, 2, anchor, pages, backups, logs, work)
}

// The value shown is the new checkpoint number. Only the end of a restart makes stores, so its count is the line's sum.
pub fn run_restart(
    state: State,
    anchor: &mut [u64],
    pages: &mut [u64],
    backups: &mut [u64],
    logs: &[u64],
    work: &mut [u64],
) -> Done
    ensures { Runs Restart state.carried (world_of anchor.old pages.old backups.old logs.now work.old)
        result (world_of anchor.new pages.new backups.new logs.now work.new) }
{
    let replayed = replay_all(state, anchor, pages, backups, logs, work);
    if !is_finished(replayed.answer) {
        return done_of(replayed, 0);
    }
    let mut budget = u64::MAX;
    let called = store::restarts::restart_end(
        replayed.state,
        anchor,
        pages,
        backups,
        logs,
        work,
        &mut budget,
    );
    done_of(called, value_of(called.answer))
}
