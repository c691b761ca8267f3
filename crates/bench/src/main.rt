// The benchmark's program: a stream of transactions on a formatted store, a power failure, restarts. It reads its sizes from standard
// input and prints counts and digests; it has no clock, bench/run times it.
#![tactic(auto)]

mod answers;
mod copying;
mod input;
mod measure;
mod restarts;
mod serve;
mod setup;
mod stream;

use crate::input::{Plan, plan_of};
use crate::measure::{digest, line, log_words};
use crate::restarts::restarted;
use crate::serve::{Tally, served};
use crate::setup::formatted;
use trial_table::words::{front_mut, zeros};

// A formatted store, and the transactions on it.
fn loaded(
    plan: Plan,
    value: &mut [u64],
    anchor: &mut [u64],
    pages: &mut [u64],
    backups: &mut [u64],
    logs: &mut [u64],
    work: &mut [u64],
) -> Tally {
    let begun = formatted(plan, anchor, pages, backups, logs, work);
    served(plan, begun, value, anchor, pages, backups, logs, work)
}

// What the transactions come to.
fn report(tally: Tally, words: u64, contents: u64) {
    line(b"transactions ", tally.taken / 5);
    line(b"aborts ", tally.aborts);
    line(b"checkpoints ", tally.checkpoints);
    line(b"stores ", tally.stores);
    line(b"ones ", tally.ones);
    line(b"words ", words);
    line(b"before ", contents);
}

// The power failure: the state and the buffers are lost, and the pages are restarted from the devices.
fn run_restarts(
    plan: Plan,
    anchor: &mut [u64],
    pages: &mut [u64],
    backups: &mut [u64],
    logs: &[u64],
    work: &mut [u64],
) {
    if plan.restarts == 0 {
        return;
    }
    let records = restarted(plan, anchor, pages, backups, logs, work);
    line(b"records ", records);
    line(b"after ", digest(pages));
}

// The whole run, on slices of the lengths that the sizes ask for.
fn run(
    plan: Plan,
    value: &mut [u64],
    anchor: &mut [u64],
    pages: &mut [u64],
    backups: &mut [u64],
    logs: &mut [u64],
    work: &mut [u64],
) {
    let tally = loaded(plan, value, anchor, pages, backups, logs, work);
    report(tally, log_words(logs, plan.disks, plan.ring), digest(pages));
    run_restarts(plan, anchor, pages, backups, logs, work);
}

// Lends the first words of each memory.
fn lent(
    plan: Plan,
    value: &mut [u64],
    anchor: &mut [u64],
    pages: &mut [u64],
    backups: &mut [u64],
    logs: &mut [u64],
    work: &mut [u64],
) {
    run(
        plan,
        front_mut(value, plan.width),
        anchor,
        front_mut(pages, plan.memory),
        front_mut(backups, plan.copies),
        front_mut(logs, plan.rings),
        front_mut(work, plan.scratch),
    );
}

fn read_plan() -> Plan {
    let mut text = io::buffer();
    let n = io::read_full(0, &mut text);
    plan_of(&text[..n])
}

fn main() {
    let plan = read_plan();
    let mut value = [0u64; 32];
    let mut anchor = [0u64; 148];
    let mut pages = [0u64; 8192];
    let mut backups = [0u64; 16384];
    let mut logs = zeros::<524296>();
    let mut work = [0u64; 9049];
    lent(
        plan,
        &mut value,
        &mut anchor,
        &mut pages,
        &mut backups,
        &mut logs,
        &mut work,
    );
}
