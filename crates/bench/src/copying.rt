// A checkpoint, all three calls.
use store::checkpoints::{checkpoint_begin, checkpoint_end, checkpoint_step};
use store::{Called, State};

// Every page copied.
fn copied(
    state: State,
    count: u64,
    anchor: &[u64],
    pages: &[u64],
    backups: &mut [u64],
    logs: &[u64],
    work: &mut [u64],
    budget: &mut u64,
) -> State {
    let mut s = state;
    for _ in 0..count {
        let done = checkpoint_step(s, anchor, pages, backups, logs, work, budget);
        s = done.state;
    }
    s
}

// What follows its begin: the copies, and its end.
fn completed(
    state: State,
    count: u64,
    anchor: &mut [u64],
    pages: &[u64],
    backups: &mut [u64],
    logs: &mut [u64],
    work: &mut [u64],
    budget: &mut u64,
) -> Called {
    let s = copied(state, count, anchor, pages, backups, logs, work, budget);
    checkpoint_end(s, anchor, pages, backups, logs, work, budget)
}

// What its end hands back.
pub fn checkpointed(
    state: State,
    count: u64,
    anchor: &mut [u64],
    pages: &[u64],
    backups: &mut [u64],
    logs: &mut [u64],
    work: &mut [u64],
    budget: &mut u64,
) -> Called {
    let begun = checkpoint_begin(state, anchor, pages, backups, logs, work);
    completed(
        begun.state,
        count,
        anchor,
        pages,
        backups,
        logs,
        work,
        budget,
    )
}
