// The calls of a transaction.
ghost use Rattle.std.specs.Prelude.{◌≡◌, true, List, ℕ};
ghost use Rattle.model.specs.World.{world_of};
ghost use Rattle.model.specs.State.{sound};
ghost use Rattle.model.specs.Transaction.{read_words};
ghost use Rattle.model.specs.Call.{begin, update, read, commit, abort, set_classes, look};
ghost use Rattle.model.specs.View.{core_of, body_of, Serves};
ghost use Rattle.store.specs.Handed.{handed_of};

use crate::{Called, State, carried_of, hand_back};
use model::Answer;

// Answers the transaction's number. Its disk is the idlest with room of those that serve its class.
pub fn begin(
    state: State,
    class: u8,
    anchor: &[u64],
    pages: &[u64],
    backups: &[u64],
    logs: &[u64],
    work: &mut [u64],
) -> Called
    ensures serves { Serves (begin class) state.carried (world_of anchor.now pages.now backups.now logs.now work.old)
        (handed_of result) 0 (world_of anchor.now pages.now backups.now logs.now work.new) }
    ensures work_value { sound (core_of state.carried work.old) ≡ true → sound (core_of result.state.carried work.new) ≡ true }
{
    let carried = carried_of(state);
    let handed = txn::begin::begin(carried, class, anchor, pages, backups, logs, work);
    hand_back(handed)
}

// Sets which disks serve which class, from 1 to 16 lines of three words: lowest class, highest class, set of disks. No device is lent.
pub fn set_classes(state: State, lines: &[u64], work: &[u64]) -> Called
    ensures serves { (anchor pages backups logs : List ℕ) → Serves (set_classes lines.now) state.carried (world_of anchor pages backups logs work.now)
        (handed_of result) 0 (world_of anchor pages backups logs work.now) }
    ensures work_value { sound (core_of state.carried work.now) ≡ true → sound (core_of result.state.carried work.now) ≡ true }
{
    let carried = carried_of(state);
    let handed = txn::setting::set_classes(carried, lines, work);
    hand_back(handed)
}

// Sets a slot, and holds it until the transaction closes. Answers in how many bits the old value and the new one differ.
pub fn update(
    state: State,
    number: u64,
    page: u64,
    slot: u64,
    value: &[u64],
    anchor: &[u64],
    pages: &mut [u64],
    backups: &[u64],
    logs: &mut [u64],
    work: &mut [u64],
    budget: &mut u64,
) -> Called
    ensures serves { Serves (update number page slot value.now budget.old) state.carried (world_of anchor.now pages.old backups.now logs.old work.old)
        (handed_of result) budget.new (world_of anchor.now pages.new backups.now logs.new work.new) }
    ensures work_value { sound (core_of state.carried work.old) ≡ true → sound (core_of result.state.carried work.new) ≡ true }
{
    let carried = carried_of(state);
    let handed = access::update::update(
        carried, number, page, slot, value, anchor, pages, backups, logs, work, budget,
    );
    hand_back(handed)
}

// The slot's words as a part of the page memory, empty if the read is refused. Reader 0 has no transaction.
pub fn read<'a>(
    state: State,
    reader: u64,
    page: u64,
    slot: u64,
    anchor: &[u64],
    pages: &'a [u64],
    backups: &[u64],
    logs: &[u64],
    work: &[u64],
) -> &'a [u64]
    ensures { result.now ≡ read_words (core_of state.carried work.now) (body_of (world_of anchor.now pages.now backups.now logs.now work.now)) reader page slot }
{
    access::read::read(
        state.carried,
        reader,
        page,
        slot,
        anchor,
        pages,
        backups,
        logs,
        work,
    )
}

// What a read answers; it changes nothing.
pub fn read_answer(
    state: State,
    reader: u64,
    page: u64,
    slot: u64,
    anchor: &[u64],
    pages: &[u64],
    backups: &[u64],
    logs: &[u64],
    work: &[u64],
) -> Answer
    ensures { Serves (look (read reader page slot)) state.carried (world_of anchor.now pages.now backups.now logs.now work.now)
        (record { answer = result; carried = state.carried }) 0 (world_of anchor.now pages.now backups.now logs.now work.now) }
{
    access::read::read_answer(
        state.carried,
        reader,
        page,
        slot,
        anchor,
        pages,
        backups,
        logs,
        work,
    )
}

// Closes a transaction; its last store makes its results last.
pub fn commit(
    state: State,
    number: u64,
    anchor: &[u64],
    pages: &[u64],
    backups: &[u64],
    logs: &mut [u64],
    work: &mut [u64],
    budget: &mut u64,
) -> Called
    ensures serves { Serves (commit number budget.old) state.carried (world_of anchor.now pages.now backups.now logs.old work.old)
        (handed_of result) budget.new (world_of anchor.now pages.now backups.now logs.new work.new) }
    ensures work_value { sound (core_of state.carried work.old) ≡ true → sound (core_of result.state.carried work.new) ≡ true }
{
    let carried = carried_of(state);
    let handed = txn::commit::commit(carried, number, anchor, pages, backups, logs, work, budget);
    hand_back(handed)
}

// Takes a transaction's updates back, newest first, and closes it. Answers in how many bits they had changed their slots, over all of them.
pub fn abort(
    state: State,
    number: u64,
    anchor: &[u64],
    pages: &mut [u64],
    backups: &[u64],
    logs: &mut [u64],
    work: &mut [u64],
    budget: &mut u64,
) -> Called
    ensures serves { Serves (abort number budget.old) state.carried (world_of anchor.now pages.old backups.now logs.old work.old)
        (handed_of result) budget.new (world_of anchor.now pages.new backups.now logs.new work.new) }
    ensures work_value { sound (core_of state.carried work.old) ≡ true → sound (core_of result.state.carried work.new) ≡ true }
{
    let carried = carried_of(state);
    let handed = abort::abort::abort(carried, number, anchor, pages, backups, logs, work, budget);
    hand_back(handed)
}
