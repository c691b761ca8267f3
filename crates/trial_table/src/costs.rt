// What a call that is not refused stores, and how it changes the log room.
use crate::calls::{Call, Kind};
use crate::logs::Budget;
use crate::plain::Plain;
use crate::refusals::refusal;
use crate::shape::{Shape, start_of, total_of, width_of};
use crate::wanted::{Wanted, charged, refused};
use crate::words::get;
use crate::{logs, ones, rooms, write_sets};

// What a call under a budget is to answer.
pub fn expected(
    shape: Shape,
    plain: Plain,
    call: Call,
    remains: u64,
    budget: u64,
    book: &mut [u64],
) -> Wanted {
    if let Some(refusal) = refusal(shape, plain, call, remains, book) {
        return refused(refusal, budget);
    }
    let value = value_of(shape, plain, call, book);
    let after = charge(shape, plain, call, Some(budget), book);
    charged(budget, after, value)
}

// A begin answers its number, an update the bits that it changes, an abort those that it changes back, a restart's run the steps that it
// makes, a restart's end the new c.
fn value_of(shape: Shape, plain: Plain, call: Call, book: &[u64]) -> u64 {
    match call.kind {
        Kind::Begin => plain.next,
        Kind::Update => ones::update_ones(shape, plain.entries, call, book),
        Kind::Abort => ones::abort_ones(plain.entries, call.number, book),
        Kind::RestartRun => steps_of(shape, call, book),
        Kind::RestartEnd => plain.epoch.saturating_add(1),
        _ => 0,
    }
}

// The steps that a restart's step or run makes.
fn steps_of(shape: Shape, call: Call, book: &[u64]) -> u64 {
    if call.kind != Kind::RestartRun {
        return 1;
    }
    let left = logs::steps_left(book, shape.disks, shape.pages, call.number);
    call.most.min(left)
}

// A transaction's place and its disk; for 0 the first free place. A call that is not refused has one.
#[derive(Clone, Copy)]
struct Seat {
    place: u64,
    disk: u64,
}

fn seat_of(number: u64, book: &[u64]) -> Seat {
    let place = write_sets::place_of(book, number).unwrap_or(0);
    let disk = get(book, rooms::disk_at(place));
    Seat { place, disk }
}

// A transaction's call.
fn charge_transaction(
    shape: Shape,
    entries: u64,
    call: Call,
    budget: Budget,
    book: &mut [u64],
) -> Budget {
    let seat = seat_of(call.number, book);
    match call.kind {
        Kind::Begin => {
            seat_begun(shape, call.class, seat.place, book);
            budget
        }
        Kind::Update => charge_update(width_of(shape, call.page), seat, budget, book),
        Kind::Commit => charge_commit(seat, budget, book),
        _ => charge_abort(entries, call.number, seat, budget, book),
    }
}

fn charge(shape: Shape, plain: Plain, call: Call, budget: Budget, book: &mut [u64]) -> Budget {
    match call.kind {
        Kind::Begin | Kind::Update | Kind::Commit | Kind::Abort => {
            charge_transaction(shape, plain.entries, call, budget, book)
        }
        Kind::CheckpointBegin => {
            logs::mark(book, shape.disks);
            budget
        }
        Kind::CheckpointEnd => charge_close(shape.disks, budget, book),
        Kind::RestartStep | Kind::RestartRun => {
            let steps = steps_of(shape, call, book);
            logs::replay(book, call.number, steps);
            budget
        }
        _ => budget?.checked_sub(stores_of(shape, plain.copied, call.kind)),
    }
}

// The stores of a call that does not touch the logs. Format's are c, three sizes, both arrays, both rows, the tails, backup 1, c;
// a checkpoint step's are its page; a restart end's are all pages, a start for each disk, and c.
fn stores_of(shape: Shape, copied: u64, kind: Kind) -> u64 {
    match kind {
        Kind::Format => total_of(shape)
            .saturating_add(shape.disks)
            .saturating_add(149),
        Kind::CheckpointStep => {
            start_of(shape, copied.saturating_add(1)).saturating_sub(start_of(shape, copied))
        }
        Kind::RestartEnd => total_of(shape).saturating_add(starts_of(shape.disks)),
        _ => 0,
    }
}

// A start for each disk, and c.
fn starts_of(disks: u64) -> u64 {
    disks.saturating_add(1)
}

// A begun transaction's disk.
fn seat_begun(shape: Shape, class: u8, place: u64, book: &mut [u64]) {
    if let Some(disk) = rooms::idlest(book, u64::from(class), shape.disks, shape.ring) {
        rooms::begin(book, place, disk);
    }
}

fn charge_update(width: u64, seat: Seat, budget: Budget, book: &mut [u64]) -> Budget {
    let words = width.saturating_add(3);
    let left = logs::append(book, seat.disk, words, budget)?;
    rooms::update(book, seat.place, words);
    Some(left)
}

// The closing record, and a flush.
fn charge_commit(seat: Seat, budget: Budget, book: &mut [u64]) -> Budget {
    let disk = seat.disk;
    let appended = logs::append(book, disk, 2, budget);
    let after = logs::flush(book, disk, appended);
    rooms::close(book, seat.place);
    after
}

// A compensation for each update, newest first, then the closing record.
fn charge_abort(entries: u64, number: u64, seat: Seat, budget: Budget, book: &mut [u64]) -> Budget {
    let disk = seat.disk;
    let undone = compensate(entries, number, disk, budget, book);
    let after = logs::append(book, disk, 2, undone);
    rooms::close(book, seat.place);
    after
}

fn compensate(entries: u64, number: u64, disk: u64, budget: Budget, book: &mut [u64]) -> Budget {
    let mut after = budget;
    for entry in (0..entries).rev() {
        if let Some(words) = compensation(entry, number, book) {
            after = logs::append(book, disk, words, after);
        }
    }
    after
}

// The words of an entry's compensation, none where the entry is not the transaction's.
fn compensation(entry: u64, number: u64, book: &[u64]) -> Option<u64> {
    let at = write_sets::entry_at(entry);
    let width = get(book, at.saturating_add(2));
    (get(book, at) == number).then_some(width.saturating_add(3))
}

// The flushes, a start for each disk, and c.
fn charge_close(disks: u64, budget: Budget, book: &mut [u64]) -> Budget {
    let flushed = logs::flush_all(book, disks, budget);
    let left = flushed?.checked_sub(starts_of(disks))?;
    logs::move_starts(book, disks);
    Some(left)
}
