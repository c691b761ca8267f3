// A trial of one size under way, but for the store's state: the plain table's numbers, the plan, and what was tried and agreed.
use crate::choices::{lent_short, list_call, restart_call};
use crate::plan;
use crate::plan::{Mode, Plan, new_plan};
use model::Answer;
use trial_table::calls::{Call, Kind, call_of};
use trial_table::costs::expected;
use trial_table::plain::{Plain, new_plain};
use trial_table::random::next;
use trial_table::shape::{Shape, address_of, total_of, width_of};
use trial_table::wanted::is_wanted;
use trial_table::words::{get, same, tally};
use trial_table::{plain, write_sets};

// Calls made, and those that answered as expected; restarts taken, and those after which the pages were the results.
#[derive(Clone, Copy)]
pub struct Counts {
    pub calls: u64,
    pub agreed: u64,
    pub restarts: u64,
    pub right: u64,
}

#[derive(Clone, Copy)]
pub struct Progress {
    pub shape: Shape,
    pub plain: Plain,
    pub plan: Plan,
    pub counts: Counts,
}

pub fn new_progress(shape: Shape, lists: u64) -> Progress {
    Progress {
        shape,
        plain: new_plain(),
        plan: new_plan(lists),
        counts: Counts {
            calls: 0,
            agreed: 0,
            restarts: 0,
            right: 0,
        },
    }
}

// What the next turn does.
pub fn mode_of(progress: Progress) -> Mode {
    progress.plan.mode
}

// The next call; `source` has something left to replay.
pub fn next_call(progress: Progress, source: u64, book: &[u64]) -> Call {
    let plan = progress.plan;
    let plain = progress.plain;
    let shape = progress.shape;
    let seed = plan.seed;
    let call = match plan.mode {
        Mode::Formatting => call_of(Kind::Format, 0),
        Mode::Probing => call_of(Kind::RestartBegin, 0),
        Mode::Listing => list_call(shape, plain, seed, book),
        _ => restart_call(shape, plain.stage, plan.calls, source, seed),
    };
    lent_short(call, next(seed))
}

// Whether what was read is the reader's newest entry, or what the results have.
fn reads_newest(progress: Progress, call: Call, book: &[u64]) -> bool {
    let shape = progress.shape;
    let address = address_of(shape, call.page, call.slot);
    let at = write_sets::current_at(book, progress.plain.entries, address);
    write_sets::seen_is(book, at, width_of(shape, call.page))
}

// Whether what was read is what it should be: nothing, where the read is to be refused.
fn reads_well(progress: Progress, call: Call, wanted: Answer, book: &[u64]) -> bool {
    if call.kind != Kind::Read {
        return true;
    }
    match wanted {
        Answer::Refused { .. } => get(book, write_sets::seen_at(0)) == 0,
        _ => reads_newest(progress, call, book),
    }
}

// The progress after a call: its answer is compared with what is expected, with the budget left and whether it kept what it had to keep.
pub fn after_call(
    progress: Progress,
    call: Call,
    remains: u64,
    answer: Answer,
    left: u64,
    kept: bool,
    book: &mut [u64],
) -> Progress {
    let shape = progress.shape;
    let plan = progress.plan;
    let counts = progress.counts;
    let wanted = expected(shape, progress.plain, call, remains, plan.budget, book);
    let agrees = is_wanted(answer, left, wanted)
        && kept
        && reads_well(progress, call, wanted.answer, book);
    let plain = plain::after_call(progress.plain, shape, call, answer, book);
    let rolled = Plan {
        budget: left,
        seed: next(plan.seed),
        ..plan
    };
    Progress {
        shape,
        plain,
        plan: plan::after_call(rolled, call.kind, answer, plain.stage, agrees),
        counts: Counts {
            calls: counts.calls.saturating_add(1),
            agreed: tally(counts.agreed, agrees),
            ..counts
        },
    }
}

// After lost power; `seed` is the next call's.
pub fn after_loss(progress: Progress, seed: u64, book: &mut [u64]) -> Progress {
    Progress {
        plain: plain::lost(progress.plain, book),
        plan: plan::after_loss(progress.plan, seed),
        ..progress
    }
}

// After a restart: the pages are compared with the results.
pub fn compared(progress: Progress, pages: &[u64], book: &[u64]) -> Progress {
    let counts = progress.counts;
    let right = same(
        pages,
        write_sets::results_of(book),
        total_of(progress.shape),
    );
    Progress {
        plan: plan::next_run(progress.plan),
        counts: Counts {
            restarts: counts.restarts.saturating_add(1),
            right: tally(counts.right, right),
            ..counts
        },
        ..progress
    }
}
