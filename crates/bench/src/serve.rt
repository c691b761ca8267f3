// The transactions of the stream. A call that finds no log room is made again after a checkpoint.
use crate::answers::{is_refused, value_of};
use crate::copying::checkpointed;
use crate::input::Plan;
use crate::stream::{SEED, next, pick, product, spread};
use model::Answer;
use store::State;
use store::transactions::{abort, begin, commit, update};
use trial_table::words::get;

// An open transaction: the state, and its number.
#[derive(Clone, Copy)]
struct Transaction {
    state: State,
    number: u64,
}

// A begin. It is refused once at most.
fn opened(
    count: u64,
    from: State,
    anchor: &mut [u64],
    pages: &[u64],
    backups: &mut [u64],
    logs: &mut [u64],
    work: &mut [u64],
    budget: &mut u64,
) -> Transaction {
    let mut state = from;
    for _ in 0..2 {
        let called = begin(state, 0, anchor, pages, backups, logs, work);
        state = called.state;
        if let Answer::Finished { value: number, .. } = called.answer {
            return Transaction { state, number };
        }
        let copied = checkpointed(state, count, anchor, pages, backups, logs, work, budget);
        state = copied.state;
    }
    Transaction { state, number: 0 }
}

// The close: an abort for one transaction in fifty, which answers how many bits it changed back.
fn closed(
    aborts: bool,
    state: State,
    number: u64,
    anchor: &[u64],
    pages: &mut [u64],
    backups: &[u64],
    logs: &mut [u64],
    work: &mut [u64],
    budget: &mut u64,
    ones: &mut u64,
) -> State {
    if aborts {
        let undone = abort(state, number, anchor, pages, backups, logs, work, budget);
        *ones = ones.wrapping_add(value_of(undone.answer));
        return undone.state;
    }
    let done = commit(state, number, anchor, pages, backups, logs, work, budget);
    done.state
}

// The three updates, of slots and to values that the stream tells from its number `seed` on. Each is refused once at most, and answers how
// many bits it changed.
fn all_updated(
    plan: Plan,
    from: State,
    number: u64,
    seed: u64,
    value: &mut [u64],
    anchor: &mut [u64],
    pages: &mut [u64],
    backups: &mut [u64],
    logs: &mut [u64],
    work: &mut [u64],
    budget: &mut u64,
    ones: &mut u64,
) -> State {
    let mut state = from;
    let mut r = next(seed);
    let mut made: u64 = 0;
    for _ in 0..6 {
        if made == 3 {
            return state;
        }
        spread(value, r);
        let called = update(
            state,
            number,
            pick(r / 4294967296, plan.pages),
            pick(r, plan.slots),
            value,
            anchor,
            pages,
            backups,
            logs,
            work,
            budget,
        );
        state = called.state;
        if is_refused(called.answer) {
            let copied = checkpointed(
                state, plan.pages, anchor, pages, backups, logs, work, budget,
            );
            state = copied.state;
        } else {
            made += 1;
            r = next(r);
            *ones = ones.wrapping_add(value_of(called.answer));
        }
    }
    state
}

// What the transactions come to.
#[derive(Clone, Copy)]
pub struct Tally {
    pub taken: u64,
    pub aborts: u64,
    pub checkpoints: u64,
    pub stores: u64,
    pub ones: u64,
}

// All transactions of the stream. Each takes five of its numbers: one for its close, three for its updates, one for none. A checkpoint
// raises c by one, from 1 after the format.
pub fn served(
    plan: Plan,
    begun: State,
    value: &mut [u64],
    anchor: &mut [u64],
    pages: &mut [u64],
    backups: &mut [u64],
    logs: &mut [u64],
    work: &mut [u64],
) -> Tally {
    let mut budget = u64::MAX;
    let mut state = begun;
    let mut r = SEED;
    let mut aborts: u64 = 0;
    let mut ones: u64 = 0;
    for _ in 0..plan.transactions {
        r = next(r);
        let aborting = r % 50 == 0;
        let called = opened(
            plan.pages,
            state,
            anchor,
            pages,
            backups,
            logs,
            work,
            &mut budget,
        );
        let number = called.number;
        state = all_updated(
            plan,
            called.state,
            number,
            r,
            value,
            anchor,
            pages,
            backups,
            logs,
            work,
            &mut budget,
            &mut ones,
        );
        r = next(next(next(next(r))));
        state = closed(
            aborting,
            state,
            number,
            anchor,
            pages,
            backups,
            logs,
            work,
            &mut budget,
            &mut ones,
        );
        aborts = aborts.wrapping_add(u64::from(aborting));
    }
    Tally {
        taken: product(plan.transactions, 5),
        aborts,
        checkpoints: get(anchor, 3).wrapping_sub(1),
        stores: u64::MAX.wrapping_sub(budget),
        ones,
    }
}
