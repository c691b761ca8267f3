// 01's table "Turned away", for a list of calls on devices that nobody else writes: the lowest number that applies, if one does.
use crate::calls::{Call, Kind};
use crate::classes::table_refusal;
use crate::plain::Plain;
use crate::shape::{Shape, address_of, slots_of, width_of};
use crate::wanted::Refusal;
use crate::words::get;
use crate::{rooms, write_sets};

// `remains` is what remains to be replayed: of the source that a step or a run names, or of any.
pub fn refusal(
    shape: Shape,
    plain: Plain,
    call: Call,
    remains: u64,
    book: &[u64],
) -> Option<Refusal> {
    if let Some(number) = first_refusal(plain, call) {
        return Some(Refusal::from(number));
    }
    if call.kind == Kind::SetClasses {
        return table_refusal(shape.disks, call.seed);
    }
    later_refusal(shape, plain, call, remains, book).map(Refusal::from)
}

// 1 stage, 2 anchor, 3 no store, 5 another slice.
fn first_refusal(plain: Plain, call: Call) -> Option<u64> {
    let short = missed(call);
    if !allowed(plain.stage, call.kind) {
        return Some(1);
    }
    if short == 1 {
        return Some(2);
    }
    if call.kind == Kind::RestartBegin && plain.epoch == 0 {
        return Some(3);
    }
    (short > 0).then_some(5)
}

// The slice that a call finds short: a table of classes is set with the work memory alone.
fn missed(call: Call) -> u64 {
    if call.kind == Kind::SetClasses && call.short != 5 {
        0
    } else {
        call.short
    }
}

// Whether a stage allows a call.
fn allowed(stage: u64, kind: Kind) -> bool {
    match kind {
        Kind::Format | Kind::RestartBegin => stage == 0,
        Kind::RestartStep | Kind::RestartRun | Kind::RestartEnd => stage == 1,
        Kind::CheckpointBegin => stage == 2,
        Kind::CheckpointStep | Kind::CheckpointEnd => stage == 3,
        _ => stage > 1,
    }
}

// 9 not open, and the numbers of each call's own.
fn later_refusal(
    shape: Shape,
    plain: Plain,
    call: Call,
    remains: u64,
    book: &[u64],
) -> Option<u64> {
    match call.kind {
        Kind::Begin => begin_refusal(shape, call.class, book),
        Kind::Update => update_refusal(shape, plain.entries, call, book),
        Kind::Read => read_refusal(shape, plain.entries, call, book),
        Kind::Commit | Kind::Abort => (!write_sets::is_open(book, call.number)).then_some(9),
        _ => items_refusal(shape, plain.copied, call, remains),
    }
}

// 12 sixteen open, 14 no room on any disk that serves the class.
fn begin_refusal(shape: Shape, class: u8, book: &[u64]) -> Option<u64> {
    if write_sets::place_of(book, 0).is_none() {
        return Some(12);
    }
    rooms::idlest(book, u64::from(class), shape.disks, shape.ring)
        .is_none()
        .then_some(14)
}

// 8 page or slot too large.
fn is_large(shape: Shape, call: Call) -> bool {
    call.page >= shape.pages || call.slot >= slots_of(shape, call.page)
}

// 11 the slot is held by another transaction.
fn is_held(shape: Shape, entries: u64, call: Call, book: &[u64]) -> bool {
    let address = address_of(shape, call.page, call.slot);
    match write_sets::newest(book, entries, address) {
        Some(entry) => get(book, write_sets::entry_at(entry)) != call.number,
        None => false,
    }
}

// 14 no room for an update and its compensation on the disk of the transaction at a place.
fn is_crowded(shape: Shape, call: Call, place: u64, book: &[u64]) -> bool {
    let disk = get(book, rooms::disk_at(place));
    let words = width_of(shape, call.page).saturating_add(3);
    !rooms::fits(book, disk, shape.ring, words.saturating_add(words))
}

// 8, 9 not open, 10 not the slot's length, 11, 14.
fn update_refusal(shape: Shape, entries: u64, call: Call, book: &[u64]) -> Option<u64> {
    if is_large(shape, call) {
        return Some(8);
    }
    let Some(place) = write_sets::open_place(book, call.number) else {
        return Some(9);
    };
    if call.length != width_of(shape, call.page) {
        return Some(10);
    }
    if is_held(shape, entries, call, book) {
        return Some(11);
    }
    is_crowded(shape, call, place, book).then_some(14)
}

// 8, 9 (reader 0 excepted), 11.
fn read_refusal(shape: Shape, entries: u64, call: Call, book: &[u64]) -> Option<u64> {
    if is_large(shape, call) {
        return Some(8);
    }
    if call.number > 0 && !write_sets::is_open(book, call.number) {
        return Some(9);
    }
    is_held(shape, entries, call, book).then_some(11)
}

// 8 source too large; 15 a step or a run where no items remain, an end while some do.
fn items_refusal(shape: Shape, copied: u64, call: Call, remains: u64) -> Option<u64> {
    match call.kind {
        Kind::CheckpointStep => (copied >= shape.pages).then_some(15),
        Kind::CheckpointEnd => (copied < shape.pages).then_some(15),
        Kind::RestartStep | Kind::RestartRun if call.number > shape.disks => Some(8),
        Kind::RestartStep | Kind::RestartRun => (remains == 0).then_some(15),
        Kind::RestartEnd => (remains > 0).then_some(15),
        _ => None,
    }
}
