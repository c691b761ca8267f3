// The calls of a pseudo-random list, one by one: what the next one is follows from a seed and the plain table.
// Each choice takes bits of the seed that no other choice of the same call takes.
use trial_table::calls::{Call, Kind, call_of};
use trial_table::plain::Plain;
use trial_table::random::{below, next};
use trial_table::shape::{Shape, slots_of, width_of};
use trial_table::words::get;
use trial_table::write_sets::open_at;

// Some open transaction, the first from a random place on; 0 where there is none.
fn some_open(seed: u64, book: &[u64]) -> u64 {
    let from = below(seed >> 14, 16);
    (0..16)
        .rev()
        .map(|place| get(book, open_at(from.saturating_add(place))))
        .find(|&number| number > 0)
        .unwrap_or(0)
}

// An open transaction; one in sixteen times any small number.
fn some_number(seed: u64, next_number: u64, book: &[u64]) -> u64 {
    if below(seed >> 4, 16) == 0 {
        return below(seed >> 10, next_number.saturating_add(2));
    }
    some_open(seed, book)
}

// A number below n, half of the time below 2; now and then it is too large.
fn some_below(seed: u64, n: u64) -> u64 {
    if below(seed, 64) == 0 {
        return n.saturating_add(below(seed >> 6, 3));
    }
    let low = below(seed >> 9, 2);
    if below(seed >> 7, 2) == 0 && low < n {
        return low;
    }
    below(seed >> 9, n)
}

// A call that names a transaction, a page and a slot.
fn named_call(kind: Kind, shape: Shape, plain: Plain, seed: u64, book: &[u64]) -> Call {
    let first = next(seed);
    let page = some_below(first, shape.pages);
    let slot = some_below(next(first), slots_of(shape, page));
    let number = some_number(seed, plain.next, book);
    Call {
        page,
        slot,
        ..call_of(kind, number)
    }
}

// A value of the slot's length, one in 32 times of any length; one in eight is zero.
fn update_call(shape: Shape, plain: Plain, seed: u64, book: &[u64]) -> Call {
    let call = named_call(Kind::Update, shape, plain, seed, book);
    let die = next(next(next(seed)));
    let length = if below(die, 32) == 0 {
        below(die >> 5, 34)
    } else {
        width_of(shape, call.page)
    };
    Call {
        length,
        filled: if below(die >> 11, 8) > 0 { length } else { 0 },
        seed: die,
        ..call
    }
}

// Half of the reads have no transaction.
fn read_call(shape: Shape, plain: Plain, seed: u64, book: &[u64]) -> Call {
    let call = named_call(Kind::Read, shape, plain, seed, book);
    Call {
        number: if below(seed >> 20, 2) == 0 {
            call.number
        } else {
            0
        },
        ..call
    }
}

// A begin of any class.
fn begin_call(seed: u64) -> Call {
    Call {
        class: ((seed >> 28) % 256) as u8,
        ..call_of(Kind::Begin, 0)
    }
}

fn table_call(seed: u64) -> Call {
    Call {
        seed: next(seed),
        ..call_of(Kind::SetClasses, 0)
    }
}

// A transaction's call, or a table of classes.
fn transaction_call(shape: Shape, plain: Plain, die: u64, seed: u64, book: &[u64]) -> Call {
    match die {
        0..=5 => begin_call(seed),
        6..=17 => update_call(shape, plain, seed, book),
        18..=21 => read_call(shape, plain, seed, book),
        22..=25 => call_of(Kind::Commit, some_number(seed, plain.next, book)),
        26 => table_call(seed),
        _ => call_of(Kind::Abort, some_number(seed, plain.next, book)),
    }
}

// A call that only the stage shut or replaying allows.
fn misplaced_kind(die: u64) -> Kind {
    match die {
        0 => Kind::Format,
        1 => Kind::RestartBegin,
        2 => Kind::RestartStep,
        3 => Kind::RestartRun,
        _ => Kind::RestartEnd,
    }
}

// A call of a checkpoint, perhaps in a stage that does not allow it.
fn checkpoint_kind(die: u64) -> Kind {
    match die {
        0 => Kind::CheckpointBegin,
        1 => Kind::CheckpointStep,
        _ => Kind::CheckpointEnd,
    }
}

// The checkpoint's next call: while pages are copied the next step, or the end.
fn checkpoint_next(shape: Shape, plain: Plain) -> Kind {
    if plain.stage == 2 {
        return Kind::CheckpointBegin;
    }
    if plain.copied < shape.pages {
        return Kind::CheckpointStep;
    }
    Kind::CheckpointEnd
}

// The next call of a list.
pub fn list_call(shape: Shape, plain: Plain, seed: u64, book: &[u64]) -> Call {
    let die = below(seed, 32);
    if die == 31 {
        return call_of(misplaced_kind(below(seed >> 5, 5)), 0);
    }
    if die == 30 {
        return call_of(checkpoint_kind(below(seed >> 5, 3)), 0);
    }
    if die > 28 || plain.stage == 3 && die % 2 == 1 {
        return call_of(checkpoint_next(shape, plain), 0);
    }
    transaction_call(shape, plain, die, seed, book)
}

// How many steps a run makes at most: none, few, or any number.
fn some_most(seed: u64) -> u64 {
    match below(seed, 4) {
        0 => 0,
        1 => seed,
        _ => below(seed >> 2, 8),
    }
}

// A step of a source; one in four times a run.
fn replay_call(source: u64, seed: u64) -> Call {
    if below(seed, 4) > 0 {
        return call_of(Kind::RestartStep, source);
    }
    Call {
        most: some_most(seed >> 2),
        ..call_of(Kind::RestartRun, source)
    }
}

// The next call of a restart, with so many calls left and this source not yet replayed; there is none above the number of disks.
// Now and then a step or a run of a source that has nothing left, or of none, or a table of classes.
pub fn restart_call(shape: Shape, stage: u64, left: u64, source: u64, seed: u64) -> Call {
    let disks = shape.disks;
    if below(seed >> 34, 64) == 0 {
        return table_call(seed);
    }
    if stage == 0 {
        return call_of(Kind::RestartBegin, 0);
    }
    if left == 0 || source > disks {
        return call_of(Kind::RestartEnd, 0);
    }
    if below(seed >> 8, 16) == 0 {
        return replay_call(below(seed >> 16, disks.saturating_add(3)), next(seed));
    }
    replay_call(source, next(seed))
}

// One in 256 calls is lent one slice that is a word short.
pub fn lent_short(call: Call, seed: u64) -> Call {
    let short = if below(seed >> 24, 256) == 0 {
        below(seed >> 32, 5).saturating_add(1)
    } else {
        0
    };
    Call { short, ..call }
}
