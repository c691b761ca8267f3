// The restarts.
use crate::sizes::{Anchor, Backups, Logs, Pages, Work};
use store::State;
use store::restarts::{restart_begin, restart_end, restart_run};
use trial_table::answers::value_of;

// A restart under way, and the items of the source that it took last.
#[derive(Clone, Copy)]
struct Progress {
    state: State,
    items: u64,
}

// Takes a source to its end by one run. A ring has fewer records than words, and there are 64 pages.
fn source_replayed(
    begun: State,
    source: u64,
    anchor: &Anchor,
    pages: &mut Pages,
    backups: &Backups,
    logs: &Logs,
    work: &mut Work,
) -> Progress {
    let done = restart_run(begun, source, 65536, anchor, pages, backups, logs, work);
    Progress {
        state: done.state,
        items: value_of(done.answer),
    }
}

// A restart from a new state up to its end, which is not called: the backup, then the log, whose records are the items.
fn replayed(
    anchor: &Anchor,
    pages: &mut Pages,
    backups: &Backups,
    logs: &Logs,
    work: &mut Work,
) -> Progress {
    let begun = restart_begin(store::new_state(), anchor, pages, backups, logs, work);
    let copied = source_replayed(begun.state, 1, anchor, pages, backups, logs, work);
    source_replayed(copied.state, 0, anchor, pages, backups, logs, work)
}

// So many restarts, none of which is ended, because an end empties the retained log.
fn repeated(
    restarts: u64,
    anchor: &Anchor,
    pages: &mut Pages,
    backups: &Backups,
    logs: &Logs,
    work: &mut Work,
) -> Progress {
    let mut last = Progress {
        state: store::new_state(),
        items: 0,
    };
    for _ in 0..restarts {
        last = replayed(anchor, pages, backups, logs, work);
    }
    last
}

// So many restarts, of which only the last is ended. Answers the records of one.
pub fn restarted(
    restarts: u64,
    anchor: &mut Anchor,
    pages: &mut Pages,
    backups: &mut Backups,
    logs: &Logs,
    work: &mut Work,
) -> u64 {
    let last = repeated(restarts, anchor, pages, backups, logs, work);
    let mut budget = u64::MAX;
    restart_end(last.state, anchor, pages, backups, logs, work, &mut budget);
    last.items
}
