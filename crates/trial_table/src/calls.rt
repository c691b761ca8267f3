// The store's calls as data: which one, and with what arguments.
use crate::random::fill;

#[derive(Clone, Copy, PartialEq, Eq)]
pub enum Kind {
    Format,
    Begin,
    Update,
    Read,
    Commit,
    Abort,
    SetClasses,
    CheckpointBegin,
    CheckpointStep,
    CheckpointEnd,
    RestartBegin,
    RestartStep,
    RestartRun,
    RestartEnd,
}

// `class` is that of a begin, `number` the transaction, the reader or the source. A value has `length` words: the first `filled` follow
// from the seed, the others are 0; a table of classes follows from the seed. A restart's run makes up to `most` steps. `short` tells which
// slice is lent a word short: 1 the anchor, 2 pages, 3 backups, 4 logs, 5 work; 0 for none.
#[derive(Clone, Copy)]
pub struct Call {
    pub kind: Kind,
    pub class: u8,
    pub number: u64,
    pub page: u64,
    pub slot: u64,
    pub length: u64,
    pub filled: u64,
    pub seed: u64,
    pub most: u64,
    pub short: u64,
}

// A call with no argument but a number.
pub fn call_of(kind: Kind, number: u64) -> Call {
    Call {
        kind,
        class: 0,
        number,
        page: 0,
        slot: 0,
        length: 0,
        filled: 0,
        seed: 0,
        most: 0,
        short: 0,
    }
}

// Lays an update's value into a slice of zeros.
pub fn lay_value(call: Call, value: &mut [u64]) {
    fill(value, call.filled, call.seed);
}

// An update's value, with zeros behind it.
pub fn laid_value(call: Call) -> [u64; 40] {
    let mut value = [0u64; 40];
    lay_value(call, &mut value);
    value
}
