// A run that fills the logs: rounds of calls drawn at random, each round but the last with a checkpoint after it. A refused call is as good
// as none.
use crate::machine::{Machine, blank, performed};
use trial_table::calls::{Call, Kind, call_of};
use trial_table::random;
use trial_table::random::below;
use trial_table::shape::{Shape, slots_of, width_of};

// An update of any slot.
fn drawn_update(shape: Shape, number: u64, seed: u64) -> Call {
    let page = below(seed, shape.pages);
    let width = width_of(shape, page);
    let slot = below(random::next(seed), slots_of(shape, page));
    Call {
        page,
        slot,
        length: width,
        filled: width,
        seed,
        ..call_of(Kind::Update, number)
    }
}

// A begin, or a call of one of the newest transactions, mostly an update.
fn drawn(shape: Shape, newest: u64, seed: u64) -> Call {
    let number = newest.saturating_sub(below(seed, 6));
    let other = random::next(seed);
    match below(other, 16) {
        0..=2 => call_of(Kind::Begin, 0),
        3 | 4 => call_of(Kind::Commit, number),
        5 => call_of(Kind::Abort, number),
        _ => drawn_update(shape, number, random::next(other)),
    }
}

// So many calls.
fn turns(m: Machine, shape: Shape, calls: u64, first_seed: u64) -> Machine {
    let mut seed = first_seed;
    let mut after = m;
    for _ in 0..calls {
        seed = random::next(random::next(seed));
        after = performed(after, shape, drawn(shape, after.newest, seed));
    }
    after
}

// Commits what is still open, but for the two newest: those hold their disks' starts back.
fn close_older(m: Machine, shape: Shape) -> Machine {
    let mut after = m;
    for newer in (2..100).rev() {
        let number = m.newest.saturating_sub(newer);
        after = performed(after, shape, call_of(Kind::Commit, number));
    }
    after
}

// As many steps as there are pages; those past the last marked page are refused.
fn copy_pages(m: Machine, shape: Shape) -> Machine {
    let mut after = m;
    for _ in 0..shape.pages {
        after = performed(after, shape, call_of(Kind::CheckpointStep, 0));
    }
    after
}

// A checkpoint, with calls while it copies.
fn checkpoint(m: Machine, shape: Shape, seed: u64) -> Machine {
    let begun = performed(m, shape, call_of(Kind::CheckpointBegin, 0));
    let copied = copy_pages(turns(begun, shape, 6, seed), shape);
    performed(copied, shape, call_of(Kind::CheckpointEnd, 0))
}

// The machine after a format and these rounds.
pub fn run(shape: Shape, rounds: u64) -> Machine {
    let mut seed: u64 = 88172645463325252;
    let mut m = performed(blank(), shape, call_of(Kind::Format, 0));
    for left in (0..rounds).rev() {
        seed = random::next(seed.saturating_add(left));
        m = close_older(turns(m, shape, 480, seed), shape);
        if left > 0 {
            m = checkpoint(m, shape, seed);
        }
    }
    m
}
