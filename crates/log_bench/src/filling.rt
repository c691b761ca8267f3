// The log is filled.
use crate::sizes::{Anchor, Backups, Logs, Pages, Work};
use crate::turns::{Closing, Plan, Turn, calls, first_turn, turn_after};
use store::formats::format;
use store::transactions::{abort, begin, commit, update};
use store::{Called, State};
use trial_table::answers::number_of;
use trial_table::words::tally;

fn formatted(
    anchor: &mut Anchor,
    pages: &mut Pages,
    backups: &mut Backups,
    logs: &mut Logs,
    work: &mut Work,
) -> State {
    let mut budget = u64::MAX;
    let done = format(
        store::new_state(),
        64,
        1,
        65536,
        [128u64; 64],
        [1u64; 64],
        anchor,
        pages,
        backups,
        logs,
        work,
        &mut budget,
    );
    done.state
}

// An update's slot is that of its call: neighbours lie in different pages, and no two of a round are one.
fn updated(
    turn: Turn,
    state: State,
    anchor: &Anchor,
    pages: &mut Pages,
    backups: &Backups,
    logs: &mut Logs,
    work: &mut Work,
    budget: &mut u64,
) -> Called {
    let value = [turn.call.saturating_add(1)];
    update(
        state,
        turn.first.saturating_add(turn.member),
        turn.call % 64,
        turn.call / 64 % 128,
        &value,
        anchor,
        pages,
        backups,
        logs,
        work,
        budget,
    )
}

fn made(
    plan: Plan,
    turn: Turn,
    state: State,
    anchor: &Anchor,
    pages: &mut Pages,
    backups: &Backups,
    logs: &mut Logs,
    work: &mut Work,
    budget: &mut u64,
) -> Called {
    if turn.lap == 0 {
        return begin(state, 0, anchor, pages, backups, logs, work);
    }
    if turn.lap <= plan.length {
        return updated(turn, state, anchor, pages, backups, logs, work, budget);
    }
    let number = turn.first.saturating_add(turn.member);
    if plan.closing == Closing::Aborted {
        abort(state, number, anchor, pages, backups, logs, work, budget)
    } else {
        commit(state, number, anchor, pages, backups, logs, work, budget)
    }
}

// The state after all calls, the number of the next transaction, and how many calls were refused.
#[derive(Clone, Copy)]
struct Reached {
    state: State,
    next: u64,
    refused: u64,
}

fn entered(
    plan: Plan,
    begun: State,
    anchor: &Anchor,
    pages: &mut Pages,
    backups: &Backups,
    logs: &mut Logs,
    work: &mut Work,
) -> Reached {
    let mut budget = u64::MAX;
    let mut state = begun;
    let mut turn = first_turn();
    let mut refused = 0;
    for _ in 0..calls(plan) {
        let called = made(
            plan,
            turn,
            state,
            anchor,
            pages,
            backups,
            logs,
            work,
            &mut budget,
        );
        state = called.state;
        refused = tally(refused, number_of(called.answer) > 0);
        turn = turn_after(plan, turn);
    }
    Reached {
        state,
        next: turn.first,
        refused,
    }
}

// Flushes what aborts leave in the buffer, by the commit of a transaction with no update. Where sixteen are open it is refused.
fn flushed(
    number: u64,
    state: State,
    anchor: &Anchor,
    pages: &Pages,
    backups: &Backups,
    logs: &mut Logs,
    work: &mut Work,
) {
    let mut budget = u64::MAX;
    let begun = begin(state, 0, anchor, pages, backups, logs, work);
    commit(
        begun.state,
        number,
        anchor,
        pages,
        backups,
        logs,
        work,
        &mut budget,
    );
}

// A store whose log is filled; answers how many calls were refused.
pub fn filled(
    plan: Plan,
    anchor: &mut Anchor,
    pages: &mut Pages,
    backups: &mut Backups,
    logs: &mut Logs,
    work: &mut Work,
) -> u64 {
    let state = formatted(anchor, pages, backups, logs, work);
    let done = entered(plan, state, anchor, pages, backups, logs, work);
    flushed(done.next, done.state, anchor, pages, backups, logs, work);
    done.refused
}
