// A trial, turn by turn: a call that is made and judged, or lost power, or the pages compared, or the counts told.
use crate::watching::{Made, watch};
use script::plan::Mode;
use script::progress;
use script::progress::{Progress, mode_of, new_progress, next_call};
use script::sizes::{shape_at, tell};
use store::State;
use store::restarts::restart_remaining;
use trial_table::calls::{Call, Kind};
use trial_table::random::{below, fill};
use trial_table::shape::{HEAD_WORDS, Shape, total_of, work_words};
use trial_table::words::{front, put, tail_mut, wipe};

#[derive(Clone, Copy)]
pub struct Trial {
    pub state: State,
    pub progress: Progress,
    pub size: u64,
    pub lists: u64,
}

pub fn turn(
    t: Trial,
    anchor: &mut [u64],
    pages: &mut [u64],
    backups: &mut [u64],
    logs: &mut [u64],
    work: &mut [u64],
    book: &mut [u64],
) -> Trial {
    match mode_of(t.progress) {
        Mode::Losing => Trial {
            state: store::new_state(),
            progress: lose_power(t.progress, pages, work, book),
            ..t
        },
        Mode::Comparing => Trial {
            progress: progress::compared(t.progress, pages, book),
            ..t
        },
        Mode::Telling => next_size(t, anchor, book),
        _ => call_turn(t, anchor, pages, backups, logs, work, book),
    }
}

// Power is lost: write sets and buffers go, pages and work hold anything.
fn lose_power(
    progress: Progress,
    pages: &mut [u64],
    work: &mut [u64],
    book: &mut [u64],
) -> Progress {
    let shape = progress.shape;
    let filled = fill(pages, total_of(shape), progress.plan.seed);
    let seed = fill_work(shape, filled, work);
    progress::after_loss(progress, seed, book)
}

// Fills the work memory; the list of calls goes on from the last seed of the words behind the head.
fn fill_work(shape: Shape, seed: u64, work: &mut [u64]) -> u64 {
    let last = fill(
        tail_mut(work, HEAD_WORDS),
        work_words(shape).saturating_sub(HEAD_WORDS),
        seed,
    );
    fill(work, HEAD_WORDS, last);
    last
}

// Tells what was tried on a size, and goes on to the next: no store, an empty book.
fn next_size(t: Trial, anchor: &mut [u64], book: &mut [u64]) -> Trial {
    let progress = t.progress;
    tell(progress.shape, progress.counts);
    put(anchor, 3, 0);
    wipe(book, 8600);
    let size = t.size.saturating_add(1);
    Trial {
        state: store::new_state(),
        progress: new_progress(shape_at(size), t.lists),
        size,
        lists: t.lists,
    }
}

// The first source from a random one on, in turn, of which something remains; none where there is no such, or in another stage.
fn some_source(state: State, progress: Progress, work: &[u64]) -> Option<u64> {
    if progress.plain.stage != 1 {
        return None;
    }
    let sources = progress.shape.disks.saturating_add(1);
    let from = below(progress.plan.seed, sources);
    (from..sources)
        .chain(0..from)
        .find(|&source| restart_remaining(state, source, work) > 0)
}

// What remains to be replayed, by the call that tells: of the source that a step names, or of any.
fn remaining(state: State, call: Call, source: Option<u64>, work: &[u64]) -> u64 {
    match call.kind {
        Kind::RestartStep | Kind::RestartRun => restart_remaining(state, call.number, work),
        Kind::RestartEnd => u64::from(source.is_some()),
        _ => 0,
    }
}

// A call, its budget, and what remains to be replayed as it is made.
#[derive(Clone, Copy)]
struct Asked {
    call: Call,
    budget: u64,
    remains: u64,
}

// Where no source has something left, the next call is told one too large.
fn ask(state: State, progress: Progress, work: &[u64], book: &[u64]) -> Asked {
    let shape = progress.shape;
    let own = front(work, work_words(shape));
    let source = some_source(state, progress, own);
    let call = next_call(
        progress,
        source.unwrap_or(shape.disks.saturating_add(1)),
        book,
    );
    Asked {
        call,
        budget: progress.plan.budget,
        remains: remaining(state, call, source, own),
    }
}

// The next call, made and judged.
fn call_turn(
    t: Trial,
    anchor: &mut [u64],
    pages: &mut [u64],
    backups: &mut [u64],
    logs: &mut [u64],
    work: &mut [u64],
    book: &mut [u64],
) -> Trial {
    let progress = t.progress;
    let asked = ask(t.state, progress, work, book);
    let made = watch(
        t.state,
        progress.shape,
        asked.call,
        asked.budget,
        anchor,
        pages,
        backups,
        logs,
        work,
        book,
    );
    judge(t, asked, made, book)
}

fn judge(t: Trial, asked: Asked, made: Made, book: &mut [u64]) -> Trial {
    let called = made.called;
    Trial {
        state: called.state,
        progress: progress::after_call(
            t.progress,
            asked.call,
            asked.remains,
            called.answer,
            made.left,
            made.kept,
            book,
        ),
        ..t
    }
}
