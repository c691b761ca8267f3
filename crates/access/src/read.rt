// Read: the slot's words as a part of the page memory, and the companion call for the number.
ghost use Rattle.std.specs.Prelude.{◌≡◌, ◌≤◌};
ghost use Rattle.model.specs.World.{world_of};
ghost use Rattle.model.specs.declared.Carried.{Carried};
ghost use Rattle.model.specs.Transaction.{read_words};
ghost use Rattle.model.specs.Call.{read, look};
ghost use Rattle.model.specs.View.{core_of, body_of, Serves};
ghost use Rattle.access.specs.Reading.{Readable};

use crate::slots::{Slot, fails_state, find_slot, is_locked, reader_missing, slot_part};
use frame::lent::check_lent;
use frame::refusal::Refusal;
use layout::anchor::ANCHOR_WORDS;
use model::{Answer, Carried};

// The slot that a read is for, if no row refuses the read.
fn readable(
    carried: &Carried,
    reader: u64,
    page: u64,
    slot: u64,
    anchor: &[u64],
    pages: &[u64],
    backups: &[u64],
    logs: &[u64],
    work: &[u64],
) -> Result<Slot, Refusal>
    ensures { Readable carried.now (world_of anchor.now pages.now backups.now logs.now work.now) reader page slot result }
{
    check_lent(carried, anchor, pages, backups, logs, work)?;
    let asked = find_slot(work, carried.pages, carried.total, page, slot);
    if fails_state(asked) {
        return Err(Refusal::Stage);
    }
    if anchor.len() != ANCHOR_WORDS {
        return Err(Refusal::AnchorLength);
    }
    let found = asked?;
    if reader_missing(work, reader) {
        return Err(Refusal::NotOpen);
    }
    if is_locked(work, carried.disks, found.at, reader) {
        return Err(Refusal::Held);
    }
    Ok(found)
}

pub fn read_answer(
    carried: Carried,
    reader: u64,
    page: u64,
    slot: u64,
    anchor: &[u64],
    pages: &[u64],
    backups: &[u64],
    logs: &[u64],
    work: &[u64],
) -> Answer
    ensures { Serves (look (read reader page slot)) carried (world_of anchor.now pages.now backups.now logs.now work.now)
        (record { answer = result; carried = carried }) 0 (world_of anchor.now pages.now backups.now logs.now work.now) }
{
    match readable(
        &carried, reader, page, slot, anchor, pages, backups, logs, work,
    ) {
        Ok(_) => Answer::Finished {
            stores: 0,
            value: 0,
        },
        Err(refusal) => Answer::Refused {
            number: refusal.number(),
            first: 0,
            second: 0,
        },
    }
}

// The slot's part of the page memory, an empty part if the read is refused.
pub fn read<'a>(
    carried: Carried,
    reader: u64,
    page: u64,
    slot: u64,
    anchor: &[u64],
    pages: &'a [u64],
    backups: &[u64],
    logs: &[u64],
    work: &[u64],
) -> &'a [u64]
    ensures { result.now ≡ read_words (core_of carried work.now) (body_of (world_of anchor.now pages.now backups.now logs.now work.now)) reader page slot }
{
    let Ok(found) = readable(
        &carried, reader, page, slot, anchor, pages, backups, logs, work,
    ) else {
        return &pages[0..0];
    };
    slot_part(pages, found.at, found.width)
}
