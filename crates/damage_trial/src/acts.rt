// Calls in a row, each tried.
use crate::probe::{Probe, tried};
use trial_table::calls::{Call, Kind, call_of};

// A call with no argument but a number.
pub fn act(p: Probe, kind: Kind, number: u64) -> Probe {
    tried(p, call_of(kind, number))
}

// A begin, and an update of a slot by the word that follows a seed.
pub fn change_word(p: Probe, number: u64, slot: u64, seed: u64) -> Probe {
    let begun = act(p, Kind::Begin, 0);
    let update = Call {
        slot,
        length: 1,
        filled: 1,
        seed,
        ..call_of(Kind::Update, number)
    };
    tried(begun, update)
}

pub fn commit_word(p: Probe, number: u64, slot: u64, seed: u64) -> Probe {
    act(change_word(p, number, slot, seed), Kind::Commit, number)
}

// A checkpoint up to its end.
pub fn copy_page(p: Probe) -> Probe {
    act(act(p, Kind::CheckpointBegin, 0), Kind::CheckpointStep, 0)
}
