// A call of the store, made as it is described, on slices whose lengths fit. It lowers the budget by the stores that it makes.
use store::checkpoints::{checkpoint_begin, checkpoint_end, checkpoint_step};
use store::formats::format;
use store::restarts::{restart_begin, restart_end, restart_run, restart_step};
use store::transactions::{abort, begin, commit, read, read_answer, set_classes, update};
use store::{Called, State};
use trial_table::calls::{Call, Kind, lay_value};
use trial_table::drawing::lay_lines;
use trial_table::shape::{Shape, list_pages};
use trial_table::words::front;
use trial_table::write_sets::note_seen;

// What a read hands out is noted in the book.
pub fn make(
    state: State,
    shape: Shape,
    call: Call,
    anchor: &mut [u64],
    pages: &mut [u64],
    backups: &mut [u64],
    logs: &mut [u64],
    work: &mut [u64],
    book: &mut [u64],
    budget: &mut u64,
) -> Called {
    let of = call.number;
    match call.kind {
        Kind::Format => make_format(state, shape, anchor, pages, backups, logs, work, budget),
        Kind::SetClasses => make_table(state, shape.disks, call.seed, work),
        Kind::Begin => begin(state, call.class, anchor, pages, backups, logs, work),
        Kind::Update => make_update(state, call, anchor, pages, backups, logs, work, budget),
        Kind::Read => make_read(state, call, anchor, pages, backups, logs, work, book),
        Kind::Commit => commit(state, of, anchor, pages, backups, logs, work, budget),
        Kind::Abort => abort(state, of, anchor, pages, backups, logs, work, budget),
        Kind::CheckpointBegin => checkpoint_begin(state, anchor, pages, backups, logs, work),
        Kind::CheckpointStep => checkpoint_step(state, anchor, pages, backups, logs, work, budget),
        Kind::CheckpointEnd => checkpoint_end(state, anchor, pages, backups, logs, work, budget),
        Kind::RestartBegin => restart_begin(state, anchor, pages, backups, logs, work),
        Kind::RestartStep => restart_step(state, of, anchor, pages, backups, logs, work),
        Kind::RestartRun => restart_run(state, of, call.most, anchor, pages, backups, logs, work),
        Kind::RestartEnd => restart_end(state, anchor, pages, backups, logs, work, budget),
    }
}

fn make_table(state: State, disks: u64, seed: u64, work: &[u64]) -> Called {
    let mut lines = [0u64; 64];
    let words = lay_lines(seed, disks, &mut lines);
    set_classes(state, front(&lines, words), work)
}

fn make_update(
    state: State,
    call: Call,
    anchor: &[u64],
    pages: &mut [u64],
    backups: &[u64],
    logs: &mut [u64],
    work: &mut [u64],
    budget: &mut u64,
) -> Called {
    let mut value = [0u64; 40];
    lay_value(call, &mut value);
    update(
        state,
        call.number,
        call.page,
        call.slot,
        front(&value, call.length),
        anchor,
        pages,
        backups,
        logs,
        work,
        budget,
    )
}

fn make_read(
    state: State,
    call: Call,
    anchor: &[u64],
    pages: &[u64],
    backups: &[u64],
    logs: &[u64],
    work: &[u64],
    book: &mut [u64],
) -> Called {
    let number = call.number;
    let page = call.page;
    let slot = call.slot;
    let words = read(
        state, number, page, slot, anchor, pages, backups, logs, work,
    );
    note_seen(book, words);
    let answer = read_answer(
        state, number, page, slot, anchor, pages, backups, logs, work,
    );
    Called { answer, state }
}

fn make_format(
    state: State,
    shape: Shape,
    anchor: &mut [u64],
    pages: &mut [u64],
    backups: &mut [u64],
    logs: &mut [u64],
    work: &mut [u64],
    budget: &mut u64,
) -> Called {
    let mut slots = [0u64; 64];
    let mut widths = [0u64; 64];
    list_pages(shape, &mut slots, &mut widths);
    format(
        state,
        shape.pages,
        shape.disks,
        shape.ring,
        slots,
        widths,
        anchor,
        pages,
        backups,
        logs,
        work,
        budget,
    )
}
