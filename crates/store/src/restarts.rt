// The calls of a restart, and what remains of a source.
ghost use Rattle.std.specs.Prelude.{◌≡◌, true};
ghost use Rattle.model.specs.World.{world_of};
ghost use Rattle.model.specs.State.{sound};
ghost use Rattle.model.specs.Restart.{remaining};
ghost use Rattle.model.specs.Call.{restart_begin, restart_step, restart_run, restart_end};
ghost use Rattle.model.specs.View.{core_of, Serves};
ghost use Rattle.store.specs.Handed.{handed_of};

use crate::whole::{kept, loaded};
use crate::{Called, State, carried_of, hand_back};
use head::own::body_start;

// Checks the devices, and zeroes the pages.
pub fn restart_begin(
    state: State,
    anchor: &[u64],
    pages: &mut [u64],
    backups: &[u64],
    logs: &[u64],
    work: &mut [u64],
) -> Called
    ensures serves { Serves restart_begin state.carried (world_of anchor.now pages.old backups.now logs.now work.old)
        (handed_of result) 0 (world_of anchor.now pages.new backups.now logs.now work.new) }
    ensures work_value { sound (core_of state.carried work.old) ≡ true → sound (core_of result.state.carried work.new) ≡ true }
{
    let core = loaded(state, work);
    let from = body_start(work.len());
    let reply = restart::begin::begin(core, anchor, pages, backups, logs, &work[from..]);
    kept(reply, work)
}

// Replays the next item of a source: a log by its disk, the backup by the number of disks.
pub fn restart_step(
    state: State,
    source: u64,
    anchor: &[u64],
    pages: &mut [u64],
    backups: &[u64],
    logs: &[u64],
    work: &mut [u64],
) -> Called
    ensures serves { Serves (restart_step source) state.carried (world_of anchor.now pages.old backups.now logs.now work.old)
        (handed_of result) 0 (world_of anchor.now pages.new backups.now logs.now work.new) }
    ensures work_value { sound (core_of state.carried work.old) ≡ true → sound (core_of result.state.carried work.new) ≡ true }
{
    let carried = carried_of(state);
    let handed = restart::step::step(carried, source, anchor, pages, backups, logs, work);
    hand_back(handed)
}

// Replays up to `most` items of a source, as that many steps would; answers how many.
pub fn restart_run(
    state: State,
    source: u64,
    most: u64,
    anchor: &[u64],
    pages: &mut [u64],
    backups: &[u64],
    logs: &[u64],
    work: &mut [u64],
) -> Called
    ensures serves { Serves (restart_run source most) state.carried (world_of anchor.now pages.old backups.now logs.now work.old)
        (handed_of result) 0 (world_of anchor.now pages.new backups.now logs.now work.new) }
    ensures work_value { sound (core_of state.carried work.old) ≡ true → sound (core_of result.state.carried work.new) ≡ true }
{
    let core = loaded(state, work);
    let from = body_start(work.len());
    let reply = run::run::run(
        core,
        source,
        most,
        anchor,
        pages,
        backups,
        logs,
        &work[from..],
    );
    kept(reply, work)
}

// Makes the pages the current backup; answers the new checkpoint number.
pub fn restart_end(
    state: State,
    anchor: &mut [u64],
    pages: &[u64],
    backups: &mut [u64],
    logs: &[u64],
    work: &mut [u64],
    budget: &mut u64,
) -> Called
    ensures serves { Serves (restart_end budget.old) state.carried (world_of anchor.old pages.now backups.old logs.now work.old)
        (handed_of result) budget.new (world_of anchor.new pages.now backups.new logs.now work.new) }
    ensures work_value { sound (core_of state.carried work.old) ≡ true → sound (core_of result.state.carried work.new) ≡ true }
{
    let core = loaded(state, work);
    let from = body_start(work.len());
    let reply = restart::finish::end(
        core,
        anchor,
        pages,
        backups,
        logs,
        &mut work[from..],
        budget,
    );
    kept(reply, work)
}

// What remains of a source: words of a log, pages of the backup.
pub fn restart_remaining(state: State, source: u64, work: &[u64]) -> u64
    ensures { result ≡ remaining (core_of state.carried work.now) source }
{
    let carried = carried_of(state);
    restart::remain::remaining(carried, source, work)
}
