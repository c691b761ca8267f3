// The restarts after a power failure.
use crate::answers::{is_refused, value_of};
use crate::input::Plan;
use store::State;
use store::restarts::{restart_begin, restart_end, restart_run, restart_step};

// A restart under way, and the records of the logs that it took.
#[derive(Clone, Copy)]
struct Progress {
    state: State,
    records: u64,
}

// The most items that a source can have: no more than a ring has words and the store has pages.
fn most_items(plan: Plan) -> u64 {
    plan.ring.wrapping_add(plan.pages)
}

// A source by single steps, up to the one that is refused.
fn source_stepped(
    plan: Plan,
    state: State,
    source: u64,
    anchor: &[u64],
    pages: &mut [u64],
    backups: &[u64],
    logs: &[u64],
    work: &mut [u64],
) -> Progress {
    let most = most_items(plan);
    let mut s = state;
    for records in 0..most {
        let done = restart_step(s, source, anchor, pages, backups, logs, work);
        s = done.state;
        if is_refused(done.answer) {
            return Progress { state: s, records };
        }
    }
    Progress {
        state: s,
        records: most,
    }
}

// A source by one run, or by single steps.
fn source_replayed(
    plan: Plan,
    state: State,
    source: u64,
    anchor: &[u64],
    pages: &mut [u64],
    backups: &[u64],
    logs: &[u64],
    work: &mut [u64],
) -> Progress {
    if plan.steps != 0 {
        return source_stepped(plan, state, source, anchor, pages, backups, logs, work);
    }
    let most = most_items(plan);
    let done = restart_run(state, source, most, anchor, pages, backups, logs, work);
    Progress {
        state: done.state,
        records: value_of(done.answer),
    }
}

// All logs, then the backup.
fn all_replayed(
    plan: Plan,
    state: State,
    anchor: &[u64],
    pages: &mut [u64],
    backups: &[u64],
    logs: &[u64],
    work: &mut [u64],
) -> Progress {
    let mut s = state;
    let mut records: u64 = 0;
    for disk in 0..plan.disks {
        let one = source_replayed(plan, s, disk, anchor, pages, backups, logs, work);
        s = one.state;
        records = records.wrapping_add(one.records);
    }
    let last = source_replayed(plan, s, plan.disks, anchor, pages, backups, logs, work);
    Progress {
        state: last.state,
        records,
    }
}

// A restart from a new state up to its end, which is not called.
fn replayed(
    plan: Plan,
    anchor: &[u64],
    pages: &mut [u64],
    backups: &[u64],
    logs: &[u64],
    work: &mut [u64],
) -> Progress {
    let begun = restart_begin(store::new_state(), anchor, pages, backups, logs, work);
    all_replayed(plan, begun.state, anchor, pages, backups, logs, work)
}

// Restarts that are not ended: an end empties the retained log.
fn repeated(
    plan: Plan,
    anchor: &[u64],
    pages: &mut [u64],
    backups: &[u64],
    logs: &[u64],
    work: &mut [u64],
) {
    for _ in 1..plan.restarts {
        replayed(plan, anchor, pages, backups, logs, work);
    }
}

// A restart with its end; answers its records.
fn finished(
    plan: Plan,
    anchor: &mut [u64],
    pages: &mut [u64],
    backups: &mut [u64],
    logs: &[u64],
    work: &mut [u64],
) -> u64 {
    let last = replayed(plan, anchor, pages, backups, logs, work);
    let mut budget = u64::MAX;
    restart_end(last.state, anchor, pages, backups, logs, work, &mut budget);
    last.records
}

// So many restarts, of which only the last is ended. Answers the records of one restart.
pub fn restarted(
    plan: Plan,
    anchor: &mut [u64],
    pages: &mut [u64],
    backups: &mut [u64],
    logs: &[u64],
    work: &mut [u64],
) -> u64 {
    repeated(plan, anchor, pages, backups, logs, work);
    finished(plan, anchor, pages, backups, logs, work)
}
