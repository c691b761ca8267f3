// The three calls of a checkpoint.
ghost use Rattle.std.specs.Prelude.{◌≡◌, true};
ghost use Rattle.model.specs.World.{world_of};
ghost use Rattle.model.specs.State.{sound};
ghost use Rattle.model.specs.Call.{checkpoint_begin, checkpoint_step, checkpoint_end};
ghost use Rattle.model.specs.View.{core_of, Serves};
ghost use Rattle.store.specs.Handed.{handed_of};

use crate::whole::{kept, loaded};
use crate::{Called, State};
use head::own::body_start;

// Remembers each disk's end.
pub fn checkpoint_begin(
    state: State,
    anchor: &[u64],
    pages: &[u64],
    backups: &[u64],
    logs: &[u64],
    work: &mut [u64],
) -> Called
    ensures serves { Serves checkpoint_begin state.carried (world_of anchor.now pages.now backups.now logs.now work.old)
        (handed_of result) 0 (world_of anchor.now pages.now backups.now logs.now work.new) }
    ensures work_value { sound (core_of state.carried work.old) ≡ true → sound (core_of result.state.carried work.new) ≡ true }
{
    let core = loaded(state, work);
    let from = body_start(work.len());
    let reply = checkpoint::begin::begin(core, anchor, pages, backups, logs, &work[from..]);
    kept(reply, work)
}

// Copies the lowest page that is not yet copied.
pub fn checkpoint_step(
    state: State,
    anchor: &[u64],
    pages: &[u64],
    backups: &mut [u64],
    logs: &[u64],
    work: &mut [u64],
    budget: &mut u64,
) -> Called
    ensures serves { Serves (checkpoint_step budget.old) state.carried (world_of anchor.now pages.now backups.old logs.now work.old)
        (handed_of result) budget.new (world_of anchor.now pages.now backups.new logs.now work.new) }
    ensures work_value { sound (core_of state.carried work.old) ≡ true → sound (core_of result.state.carried work.new) ≡ true }
{
    let core = loaded(state, work);
    let from = body_start(work.len());
    let reply = checkpoint::step::step(
        core,
        anchor,
        pages,
        backups,
        logs,
        &mut work[from..],
        budget,
    );
    kept(reply, work)
}

// Flushes, stores the new starts, and switches to the new backup.
pub fn checkpoint_end(
    state: State,
    anchor: &mut [u64],
    pages: &[u64],
    backups: &[u64],
    logs: &mut [u64],
    work: &mut [u64],
    budget: &mut u64,
) -> Called
    ensures serves { Serves (checkpoint_end budget.old) state.carried (world_of anchor.old pages.now backups.now logs.old work.old)
        (handed_of result) budget.new (world_of anchor.new pages.now backups.now logs.new work.new) }
    ensures work_value { sound (core_of state.carried work.old) ≡ true → sound (core_of result.state.carried work.new) ≡ true }
{
    let core = loaded(state, work);
    let from = body_start(work.len());
    let reply = checkpoint::end::end(core, anchor, pages, backups, logs, &work[from..], budget);
    kept(reply, work)
}
