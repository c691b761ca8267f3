// A benchmark's program: fills a log by transactions of one shape, loses power, restarts. It reads the shape from standard input and prints
// counts and digests; bench/run counts its instructions.
#![tactic(auto)]

mod filling;
mod restarting;
mod sizes;
mod turns;

use filling::filled;
use restarting::restarted;
use sizes::{Anchor, Backups, Logs, Pages, Work};
use trial_table::random::digest;
use trial_table::text::count;
use turns::{Plan, calls, read_plan};

fn before_the_loss(
    plan: Plan,
    anchor: &mut Anchor,
    pages: &mut Pages,
    backups: &mut Backups,
    logs: &mut Logs,
    work: &mut Work,
) {
    let refused = filled(plan, anchor, pages, backups, logs, work);
    count(calls(plan), b" calls\n");
    count(refused, b" refused\n");
    count(logs[0], b" words\n");
    count(digest(pages, 8192, 1), b" before\n");
}

fn after_the_loss(
    plan: Plan,
    anchor: &mut Anchor,
    pages: &mut Pages,
    backups: &mut Backups,
    logs: &Logs,
    work: &mut Work,
) {
    let records = restarted(plan.restarts, anchor, pages, backups, logs, work);
    count(records, b" records\n");
    count(digest(pages, 8192, 1), b" after\n");
    count(anchor[3], b" checkpoint\n");
}

fn main() {
    let plan = read_plan();
    let mut anchor = [0u64; 148];
    let mut pages = [0u64; 8192];
    let mut backups = [0u64; 16384];
    let mut logs = [0u64; 65537];
    let mut work = [0u64; 8601];
    before_the_loss(
        plan,
        &mut anchor,
        &mut pages,
        &mut backups,
        &mut logs,
        &mut work,
    );
    if plan.restarts > 0 {
        after_the_loss(
            plan,
            &mut anchor,
            &mut pages,
            &mut backups,
            &logs,
            &mut work,
        );
    }
}
