// What is done, and which call comes next.
use trial_table::text::read_number;
use trial_table::words::times;

// In a round `together` transactions begin, make `length` updates each, by turns, and are closed. One long transaction is a round,
// sixteen interleaved ones are a round, short ones are a round each. Those that are left open have one round, and are at most sixteen.
#[derive(Clone, Copy)]
pub struct Plan {
    together: u64,
    pub length: u64,
    rounds: u64,
    pub closing: Closing,
    pub restarts: u64,
}

// What becomes of a transaction at its round's end.
#[derive(Clone, Copy, PartialEq)]
pub enum Closing {
    Committed,
    Aborted,
    LeftOpen,
}

// 1 aborts, 2 leaves open, any other number commits.
fn closing_of(number: u64) -> Closing {
    match number {
        1 => Closing::Aborted,
        2 => Closing::LeftOpen,
        _ => Closing::Committed,
    }
}

// Five lines of 20 bytes: a number with zeros in front, and the line's end.
pub fn read_plan() -> Plan {
    Plan {
        together: read_number(1),
        length: read_number(1),
        rounds: read_number(1),
        closing: closing_of(read_number(0)),
        restarts: read_number(0),
    }
}

// A lap is a call for each transaction of the round: their begins, an update of each as often as a transaction is long, their closes.
fn laps(plan: Plan) -> u64 {
    if plan.closing == Closing::LeftOpen {
        return plan.length.saturating_add(1);
    }
    plan.length.saturating_add(2)
}

// All calls.
pub fn calls(plan: Plan) -> u64 {
    times(times(plan.together, laps(plan)), plan.rounds)
}

// The next call: its number of all, its lap, and the transaction that makes it; `first` is the round's first transaction.
#[derive(Clone, Copy)]
pub struct Turn {
    pub call: u64,
    pub lap: u64,
    pub first: u64,
    pub member: u64,
}

// A format's first transaction is 1.
pub fn first_turn() -> Turn {
    Turn {
        call: 0,
        lap: 0,
        first: 1,
        member: 0,
    }
}

pub fn turn_after(plan: Plan, turn: Turn) -> Turn {
    let call = turn.call.saturating_add(1);
    let member = turn.member.saturating_add(1);
    if member < plan.together {
        return Turn {
            call,
            member,
            ..turn
        };
    }
    let lap = turn.lap.saturating_add(1);
    if lap < laps(plan) {
        return Turn {
            call,
            lap,
            member: 0,
            ..turn
        };
    }
    Turn {
        call,
        lap: 0,
        first: turn.first.saturating_add(plan.together),
        member: 0,
    }
}
