// A call's answer, judged: its number must be among those that it may give, and a refused call must leave every word.
use crate::machine::{Machine, performed};
use damage::devices::same;
use trial_table::answers::number_of;
use trial_table::calls::{Call, Kind};
use trial_table::words::tally;

// The machine, and what was found so far. `taken` tells that the restart's begin was taken: until then every later call answers 1.
#[derive(Clone, Copy)]
pub struct Probe {
    pub machine: Machine,
    pub taken: bool,
    pub images: u64,
    pub taken_images: u64,
    pub calls: u64,
    pub agreed: u64,
}

// The numbers that a call may answer. A begin or an update may find no log room where the positions are near their bound (14), and then
// there is no such transaction (9); a checkpoint's begin may find c at its bound (13), and then the checkpoint's other calls are not
// allowed (1).
fn allowed(kind: Kind) -> &'static [u64] {
    match kind {
        Kind::Begin => &[0, 14],
        Kind::Update => &[0, 9, 14],
        Kind::Commit | Kind::Abort => &[0, 9],
        Kind::CheckpointBegin => &[0, 13],
        Kind::CheckpointStep | Kind::CheckpointEnd => &[0, 1],
        _ => &[0],
    }
}

// The probe after a call, which is lent short slices first.
pub fn tried(p: Probe, call: Call) -> Probe {
    let before = tried_short(p, call);
    judged(
        before,
        performed(before.machine, call),
        allowed(call.kind),
        true,
    )
}

// A call that is lent each slice a word short: the anchor, pages, backups, logs, work.
pub fn tried_short(p: Probe, call: Call) -> Probe {
    let mut after = p;
    for short in 1..=5 {
        after = tried_with(after, call, short);
    }
    after
}

// It answers 2 for the anchor, 5 for another, or 1 where it may answer that.
fn tried_with(p: Probe, call: Call, short: u64) -> Probe {
    let number = if short == 1 { 2 } else { 5 };
    let other = if allowed(call.kind).contains(&1) {
        1
    } else {
        number
    };
    judged(
        p,
        performed(p.machine, Call { short, ..call }),
        &[number, other],
        true,
    )
}

// The probe after a call that left this machine, and that may answer these numbers; what else was asked of the call is `right`.
pub fn judged(p: Probe, after: Machine, numbers: &[u64], right: bool) -> Probe {
    let number = number_of(after.answer);
    let answers = if p.taken { numbers } else { &[1] };
    let left = number == 0 || same(p.machine.devices, after.devices);
    Probe {
        machine: after,
        calls: p.calls.saturating_add(1),
        agreed: tally(p.agreed, left && right && answers.contains(&number)),
        ..p
    }
}
