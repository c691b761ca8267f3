// One damaged image: a restart, begun with short slices first, replayed by steps and again by runs, then the calls after it.
use crate::acts::{act, change_word, commit_word, copy_page};
use crate::machine::{performed, remaining, shut};
use crate::probe::{Probe, judged, tried_short};
use damage::changes::damaged;
use damage::devices::{Devices, same_but_work};
use damage::reading::{answers, wanted_on};
use damage::replay::restarted;
use trial_table::answers::{number_of, stores_of};
use trial_table::calls::{Call, Kind, call_of};
use trial_table::words::tally;

pub fn try_image(p: Probe, good: Devices, which: u64, seed: u64) -> Probe {
    let fresh = Probe {
        machine: shut(damaged(good, which, seed)),
        taken: false,
        images: p.images.saturating_add(1),
        ..p
    };
    let begun = begin_restart(begin_short(fresh));
    let waiting = by_steps(begun);
    let stepped = end_restart(tried_short(waiting, call_of(Kind::RestartEnd, 0)));
    let machine = begun.machine;
    let again = Probe { machine, ..stepped };
    later(end_restart(by_runs(again)))
}

// Begins that are lent a short slice.
fn begin_short(p: Probe) -> Probe {
    let mut after = p;
    for short in 1..=5 {
        after = try_begin(after, short);
    }
    after
}

// A restart's begin, which answers as the table says; taken, it leaves the pages zero.
fn try_begin(p: Probe, short: u64) -> Probe {
    let before = p.machine;
    let call = Call {
        short,
        ..call_of(Kind::RestartBegin, 0)
    };
    let after = performed(before, call);
    let zero = number_of(after.answer) > 0 || after.devices.pages == [0, 0];
    let right = zero && answers(after.answer, wanted_on(before.devices, short));
    let numbers = [0, 2, 3, 4, 5, 6, 7, 13];
    judged(Probe { taken: true, ..p }, after, &numbers, right)
}

fn begin_restart(p: Probe) -> Probe {
    let after = try_begin(p, 0);
    let taken = number_of(after.machine.answer) == 0;
    Probe {
        taken,
        taken_images: tally(p.taken_images, taken),
        ..after
    }
}

// The log by runs of no step, of one and of all that are left, then the backup; after each run there may be nothing left.
fn by_runs(p: Probe) -> Probe {
    let none = try_run(tried_short(p, call_of(Kind::RestartRun, 0)), 0, 0);
    let one = try_run(none, 0, 1);
    let log_done = try_run(try_run(one, 0, 64), 0, 64);
    try_run(try_run(log_done, 1, 64), 1, 64)
}

fn try_run(p: Probe, source: u64, most: u64) -> Probe {
    let machine = p.machine;
    let number = if remaining(machine, source) > 0 {
        0
    } else {
        15
    };
    let call = Call {
        most,
        ..call_of(Kind::RestartRun, source)
    };
    judged(p, performed(machine, call), &[number], true)
}

fn try_step(p: Probe, source: u64, number: u64) -> Probe {
    let after = performed(p.machine, call_of(Kind::RestartStep, source));
    judged(p, after, &[number], true)
}

// Steps until nothing remains; then each source has nothing left.
fn by_steps(p: Probe) -> Probe {
    let short = tried_short(p, call_of(Kind::RestartStep, 0));
    let log_done = try_step(steps(short), 0, 15);
    try_step(log_done, 1, 15)
}

// The log has at most 64 records, and the backup one page.
fn steps(p: Probe) -> Probe {
    let mut after = p;
    for _ in 0..65 {
        after = step_if_any(after);
    }
    after
}

// A step of the log as long as it has a record, then of the backup.
fn step_if_any(p: Probe) -> Probe {
    let machine = p.machine;
    if remaining(machine, 0) > 0 {
        return try_step(p, 0, 0);
    }
    if remaining(machine, 1) > 0 {
        return try_step(p, 1, 0);
    }
    p
}

// A restart's end makes four stores: both words of the page, the tail, c.
fn end_restart(p: Probe) -> Probe {
    let before = p.machine;
    let after = performed(before, call_of(Kind::RestartEnd, 0));
    let wanted = restarted(before.devices);
    let right = stores_of(after.answer) == 4 && same_but_work(wanted, after.devices);
    judged(p, after, &[0], right || !p.taken)
}

// A commit, and an abort across a checkpoint.
fn later(p: Probe) -> Probe {
    let committed = commit_word(p, 1, 0, 5);
    let copied = copy_page(change_word(committed, 2, 1, 6));
    act(act(copied, Kind::Abort, 2), Kind::CheckpointEnd, 0)
}
