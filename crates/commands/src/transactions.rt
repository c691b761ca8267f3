// The commands of a transaction, and get.
ghost use Rattle.std.specs.Prelude.{◌≡◌};
ghost use Rattle.model.specs.World.{world_of};
ghost use Rattle.model.specs.View.{core_of, body_of};
ghost use Rattle.lines.specs.declared.command.Command.TheVariants.{Begin, Set, Commit, Abort, Get};
ghost use Rattle.commands.specs.Shown.{slot_word};
ghost use Rattle.commands.specs.Meaning.{Runs};

use crate::outcome::{Done, done_of, shown, value_of};
use store::State;

pub fn run_begin(
    state: State,
    anchor: &[u64],
    pages: &[u64],
    backups: &[u64],
    logs: &[u64],
    work: &mut [u64],
) -> Done
    ensures { Runs Begin state.carried (world_of anchor.now pages.now backups.now logs.now work.old)
        result (world_of anchor.now pages.now backups.now logs.now work.new) }
{
    let called = store::transactions::begin(state, 0, anchor, pages, backups, logs, work);
    done_of(called, value_of(called.answer))
}

// A slot, and the number of the transaction that sees it; 0 has no transaction.
#[derive(Clone, Copy)]
pub struct Seen {
    pub number: u64,
    pub page: u64,
    pub slot: u64,
}

// The word of a one-word slot as it is seen; 0 where the read is refused.
fn slot_word(
    state: State,
    seen: Seen,
    anchor: &[u64],
    pages: &[u64],
    backups: &[u64],
    logs: &[u64],
    work: &[u64],
) -> u64
    ensures { result ≡ slot_word (core_of state.carried work.now) (body_of (world_of anchor.now pages.now backups.now logs.now work.now)) seen.number seen.page seen.slot }
{
    let words = store::transactions::read(
        state,
        seen.number,
        seen.page,
        seen.slot,
        anchor,
        pages,
        backups,
        logs,
        work,
    );
    match words {
        &[word, ..] => word,
        [] => 0,
    }
}

// The value shown is the difference: before, as the transaction reads it, XOR after.
pub fn run_set(
    state: State,
    seen: Seen,
    value: u64,
    anchor: &[u64],
    pages: &mut [u64],
    backups: &[u64],
    logs: &mut [u64],
    work: &mut [u64],
) -> Done
    ensures { Runs (Set seen.number seen.page seen.slot value) state.carried (world_of anchor.now pages.old backups.now logs.old work.old)
        result (world_of anchor.now pages.new backups.now logs.new work.new) }
{
    let before = slot_word(state, seen, anchor, pages, backups, logs, work);
    let mut budget = u64::MAX;
    let called = store::transactions::update(
        state,
        seen.number,
        seen.page,
        seen.slot,
        &[value],
        anchor,
        pages,
        backups,
        logs,
        work,
        &mut budget,
    );
    done_of(called, before ^ value)
}

pub fn run_commit(
    state: State,
    number: u64,
    allowance: u64,
    anchor: &[u64],
    pages: &[u64],
    backups: &[u64],
    logs: &mut [u64],
    work: &mut [u64],
) -> Done
    ensures { Runs (Commit number allowance) state.carried (world_of anchor.now pages.now backups.now logs.old work.old)
        result (world_of anchor.now pages.now backups.now logs.new work.new) }
{
    let mut budget = allowance;
    let called = store::transactions::commit(
        state,
        number,
        anchor,
        pages,
        backups,
        logs,
        work,
        &mut budget,
    );
    done_of(called, 0)
}

pub fn run_abort(
    state: State,
    number: u64,
    anchor: &[u64],
    pages: &mut [u64],
    backups: &[u64],
    logs: &mut [u64],
    work: &mut [u64],
) -> Done
    ensures { Runs (Abort number) state.carried (world_of anchor.now pages.old backups.now logs.old work.old)
        result (world_of anchor.now pages.new backups.now logs.new work.new) }
{
    let mut budget = u64::MAX;
    let called = store::transactions::abort(
        state,
        number,
        anchor,
        pages,
        backups,
        logs,
        work,
        &mut budget,
    );
    done_of(called, 0)
}

pub fn run_get(
    state: State,
    page: u64,
    slot: u64,
    anchor: &[u64],
    pages: &[u64],
    backups: &[u64],
    logs: &[u64],
    work: &[u64],
) -> Done
    ensures { Runs (Get page slot) state.carried (world_of anchor.now pages.now backups.now logs.now work.now)
        result (world_of anchor.now pages.now backups.now logs.now work.now) }
{
    let seen = Seen {
        number: 0,
        page,
        slot,
    };
    let word = slot_word(state, seen, anchor, pages, backups, logs, work);
    let answer = store::transactions::read_answer(
        state, 0, page, slot, anchor, pages, backups, logs, work,
    );
    Done {
        outcome: Some(shown(answer, word)),
        state,
    }
}
