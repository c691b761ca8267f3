// What is tried on a size, turn by turn. First a format under every budget from 0 on. Then lists of calls, each run to its end or until its
// budget is used up; then power is lost, and a restart is tried until one is taken. There are three sweeps: the same list under every
// budget from 0 on until it is not cut; lists of every length, each another, with power lost between two calls; one list, and the end
// of the restart after it under every budget from 0 on.
use model::Answer;
use trial_table::calls::Kind;
use trial_table::random::{below, next};
use trial_table::words::times;

// What the next turn does: a call (of a format, of the restart after a cut format, of a list, of a restart), or power is lost, or
// the pages are compared with the results, or the size's counts are told.
#[derive(Clone, Copy)]
pub enum Mode {
    Formatting,
    Probing,
    Listing,
    Losing,
    Restarting,
    Comparing,
    Telling,
}

// `sweeps` are left on this size, with the one under way; `run` is the budget, or the length, of its run; `calls` are left of the list, or
// calls of the restart; `budget` is that of the next call, `attempt` that of the next restart end; `cut` tells that the list
// was cut; a list's calls follow from the seed `list`, the next call from `seed`.
#[derive(Clone, Copy)]
pub struct Plan {
    pub mode: Mode,
    pub sweeps: u64,
    pub run: u64,
    pub calls: u64,
    pub budget: u64,
    pub attempt: u64,
    pub cut: bool,
    pub list: u64,
    pub seed: u64,
}

// The calls of a list.
const LONGEST: u64 = 200;

// The first seed.
const FIRST: u64 = 88172645463325252;

// What a sweep varies: the budget of a list, its length, or the budget of the restart's end after it.
#[derive(Clone, Copy, PartialEq, Eq)]
enum Sweep {
    Budgets,
    Lengths,
    Ends,
}

// The sweep under way where so many are left.
fn sweep_of(sweeps: u64) -> Sweep {
    match sweeps % 3 {
        0 => Sweep::Budgets,
        2 => Sweep::Lengths,
        _ => Sweep::Ends,
    }
}

pub fn new_plan(lists: u64) -> Plan {
    Plan {
        mode: Mode::Formatting,
        sweeps: times(lists, 3),
        run: 0,
        calls: 0,
        budget: 0,
        attempt: u64::MAX,
        cut: false,
        list: FIRST,
        seed: FIRST,
    }
}

// A run of a list of calls, from the list's seed.
fn new_run(plan: Plan, calls: u64, budget: u64, attempt: u64) -> Plan {
    Plan {
        mode: if calls > 0 {
            Mode::Listing
        } else {
            Mode::Losing
        },
        calls,
        budget,
        attempt,
        cut: false,
        seed: plan.list,
        ..plan
    }
}

// The run that the plan has come to.
fn start_run(plan: Plan) -> Plan {
    match sweep_of(plan.sweeps) {
        Sweep::Budgets => new_run(plan, LONGEST, plan.run, u64::MAX),
        Sweep::Lengths => new_run(plan, plan.run, u64::MAX, u64::MAX),
        Sweep::Ends => new_run(plan, LONGEST, u64::MAX, 0),
    }
}

// Whether a sweep's last run is done.
fn last_run(plan: Plan) -> bool {
    match sweep_of(plan.sweeps) {
        Sweep::Budgets => !plan.cut || plan.run > 65536,
        Sweep::Lengths => plan.run >= LONGEST,
        Sweep::Ends => true,
    }
}

// The seed of another list. It is not one that follows this list's: else the lists would be parts of one another.
fn other_list(seed: u64) -> u64 {
    next(seed ^ 11400714819323198485)
}

// The next run of the sweep, or the first of the next.
pub fn next_run(plan: Plan) -> Plan {
    let last = last_run(plan);
    let sweeps = plan.sweeps.saturating_sub(last as u64);
    let run = if last { 0 } else { plan.run.saturating_add(1) };
    if sweeps == 0 {
        return Plan {
            mode: Mode::Telling,
            ..plan
        };
    }
    let list = if last || sweep_of(sweeps) == Sweep::Lengths {
        other_list(plan.list)
    } else {
        plan.list
    };
    start_run(Plan {
        sweeps,
        run,
        list,
        ..plan
    })
}

// After lost power. In one of eight restarts the end comes too early.
pub fn after_loss(plan: Plan, seed: u64) -> Plan {
    let calls = if below(seed, 8) == 0 {
        below(seed >> 8, 32)
    } else {
        1048576
    };
    Plan {
        mode: Mode::Restarting,
        calls,
        budget: plan.attempt,
        seed,
        ..plan
    }
}

// After a call, by its answer and the stage that it left the store in. A format or a restart that does not answer as expected ends the
// size's trial.
pub fn after_call(plan: Plan, kind: Kind, answer: Answer, stage: u64, agrees: bool) -> Plan {
    match plan.mode {
        Mode::Listing => after_list_call(plan, stage),
        _ if agrees => after_sure_call(plan, kind, answer),
        _ => Plan {
            mode: Mode::Telling,
            ..plan
        },
    }
}

// A list ends with its last call, or where it is cut.
fn after_list_call(plan: Plan, stage: u64) -> Plan {
    let calls = plan.calls.saturating_sub(1);
    if stage == 0 || calls == 0 {
        return Plan {
            mode: Mode::Losing,
            cut: stage == 0,
            ..plan
        };
    }
    Plan { calls, ..plan }
}

fn after_sure_call(plan: Plan, kind: Kind, answer: Answer) -> Plan {
    match kind {
        Kind::Format => after_format(plan, answer),
        Kind::RestartEnd => after_restart(plan, answer),
        Kind::RestartBegin => after_begin(plan, answer),
        _ => Plan {
            calls: plan.calls.saturating_sub(1),
            ..plan
        },
    }
}

// A format that was cut is followed by a restart, which finds no store.
fn after_format(plan: Plan, answer: Answer) -> Plan {
    match answer {
        Answer::Finished { .. } => start_run(Plan { run: 0, ..plan }),
        Answer::Interrupted { .. } => Plan {
            mode: Mode::Probing,
            ..plan
        },
        Answer::Refused { .. } => plan,
    }
}

fn after_begin(plan: Plan, answer: Answer) -> Plan {
    let Answer::Refused { number: 3, .. } = answer else {
        return plan;
    };
    let run = plan.run.saturating_add(1);
    Plan {
        mode: Mode::Formatting,
        run,
        budget: run,
        ..plan
    }
}

// A restart that did not end loses power again; where its end was cut, the next one has a larger budget.
fn after_restart(plan: Plan, answer: Answer) -> Plan {
    match answer {
        Answer::Finished { .. } => Plan {
            mode: Mode::Comparing,
            ..plan
        },
        Answer::Interrupted { .. } => Plan {
            mode: Mode::Losing,
            attempt: plan.attempt.saturating_add(1),
            ..plan
        },
        Answer::Refused { .. } => Plan {
            mode: Mode::Losing,
            ..plan
        },
    }
}
