// What the plain table knows beside its book, and how a call changes both.
use crate::calls::{Call, Kind, laid_value};
use crate::shape::{Shape, address_of, width_of};
use crate::words::put;
use crate::{classes, logs, write_sets};
use model::Answer;

// Stages are 0 shut, 1 replaying, 2 open, 3 copying. `next` is the number that a begin answers, `epoch` 01's c, `copied` the pages that
// the checkpoint under way has copied, `entries` the entries of all write sets.
// The stage stays a number: public functions of `script` take it, and an enum would ask more of a caller.
#[derive(Clone, Copy)]
pub struct Plain {
    pub stage: u64,
    pub next: u64,
    pub epoch: u64,
    pub copied: u64,
    pub entries: u64,
}

// Unformatted.
pub fn new_plain() -> Plain {
    Plain {
        stage: 0,
        next: 1,
        epoch: 0,
        copied: 0,
        entries: 0,
    }
}

// After lost power: all write sets and buffers go, and the table of classes.
pub fn lost(plain: Plain, book: &mut [u64]) -> Plain {
    write_sets::clear(book);
    logs::lose(book);
    classes::forget(book);
    Plain {
        stage: 0,
        entries: 0,
        ..plain
    }
}

// After a call, by its answer.
pub fn after_call(
    plain: Plain,
    shape: Shape,
    call: Call,
    answer: Answer,
    book: &mut [u64],
) -> Plain {
    match answer {
        Answer::Finished { .. } => {
            note(plain, shape, call, book);
            taken(plain, call.kind)
        }
        Answer::Refused { .. } => plain,
        Answer::Interrupted { .. } => {
            classes::forget(book);
            Plain { stage: 0, ..plain }
        }
    }
}

// The numbers after a call that was taken.
fn taken(plain: Plain, kind: Kind) -> Plain {
    match kind {
        Kind::Begin => Plain {
            next: plain.next.saturating_add(1),
            ..plain
        },
        Kind::Update => Plain {
            entries: plain.entries.saturating_add(1),
            ..plain
        },
        Kind::CheckpointBegin => Plain {
            stage: 3,
            copied: 0,
            ..plain
        },
        Kind::CheckpointStep => Plain {
            copied: plain.copied.saturating_add(1),
            ..plain
        },
        Kind::RestartBegin => Plain { stage: 1, ..plain },
        Kind::Format | Kind::RestartEnd | Kind::CheckpointEnd => opened(plain, kind),
        _ => plain,
    }
}

// After a call that makes a checkpoint current; transactions' numbers start again from 1 where no checkpoint's end did.
fn opened(plain: Plain, kind: Kind) -> Plain {
    Plain {
        stage: 2,
        epoch: plain.epoch.saturating_add(1),
        next: if kind == Kind::CheckpointEnd {
            plain.next
        } else {
            1
        },
        ..plain
    }
}

// The book after a call that was taken.
fn note(plain: Plain, shape: Shape, call: Call, book: &mut [u64]) {
    match call.kind {
        Kind::Begin => note_begin(plain.next, book),
        Kind::Update => note_update(plain.entries, shape, call, book),
        Kind::Commit => write_sets::close(book, plain.entries, call.number, true),
        Kind::Abort => write_sets::close(book, plain.entries, call.number, false),
        Kind::SetClasses => classes::keep(shape.disks, call.seed, book),
        Kind::Format | Kind::RestartBegin => classes::forget(book),
        Kind::RestartEnd => note_restart(book),
        _ => {}
    }
}

fn note_restart(book: &mut [u64]) {
    logs::empty(book);
    classes::forget(book);
}

// A begin that is taken finds a free place.
fn note_begin(number: u64, book: &mut [u64]) {
    let place = write_sets::place_of(book, 0).unwrap_or(0);
    put(book, write_sets::open_at(place), number);
}

fn note_update(entries: u64, shape: Shape, call: Call, book: &mut [u64]) {
    let value = laid_value(call);
    let address = address_of(shape, call.page, call.slot);
    write_sets::add(
        book,
        entries,
        call.number,
        address,
        width_of(shape, call.page),
        &value,
    );
}
