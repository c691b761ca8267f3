// What an update reads before it stores: its rows, the slot, its transaction and that one's disk.
ghost use Rattle.std.specs.Prelude.{◌≡◌, true, cond, not, ◌&&◌, ◌+◌, ◌*◌, ◌≤◌, ◌<◌, ltb, eqb, length, get_or, drop};
ghost use Rattle.model.specs.World.{world_of};
ghost use Rattle.model.specs.declared.Carried.{Carried};
ghost use Rattle.model.specs.Anchor.{anchor_words};
ghost use Rattle.model.specs.Record.{words_of, update_kind};
ghost use Rattle.model.specs.Memory.{buffer_at, owner_of};
ghost use Rattle.model.specs.State.{limit, in_table};
ghost use Rattle.model.specs.View.{head_firsts, head_words, own_work, core_of};
ghost use Rattle.table.specs.Parts.{room_for};
ghost use Rattle.frame.specs.Refusal.{row_in};
ghost use Rattle.access.specs.Plans.{Both, plan_of, Planned};

use crate::slots::{Slot, fails_state, find_slot, is_locked};
use disk_log::kinds::{UPDATE, words_of};
use frame::entry::{Entry, find_entry};
use frame::lent::check_lent;
use frame::refusal::Refusal;
use head::places::{FIRSTS_AT, HEAD_WORDS};
use layout::anchor::ANCHOR_WORDS;
use layout::memory::{copy_place, owner_place};
use model::Carried;
use table::place::CLOSE_WORDS;
use table::room::fits_ring;

// Of an update that no row refuses: where its slot lies, where the slot's owner is behind the head, and the page's copy number; the
// transaction's place, its first position and its reserved words after the update; its disk's tail and fill before it, and the words
// reserved there after it.
#[derive(Clone, Copy)]
pub struct Plan {
    pub at: usize,
    pub owner: usize,
    pub copy: u64,
    pub place: usize,
    pub first: u64,
    pub reserved: u64,
    pub disk: u64,
    pub tail: u64,
    pub fill: u64,
    pub sum: u64,
}

// Rows 1, 2 and 8 to 10, by what was found of slot and transaction and by the lengths of anchor and value.
fn both(
    asked: Result<Slot, Refusal>,
    opened: Result<Entry, Refusal>,
    anchor: usize,
    value: usize,
) -> Result<(Slot, Entry), Refusal>
    ensures { Both asked opened anchor value result }
{
    if fails_state(asked) || fails_state(opened) {
        return Err(Refusal::Stage);
    }
    if anchor != ANCHOR_WORDS {
        return Err(Refusal::AnchorLength);
    }
    let found = asked?;
    let entry = opened?;
    if value == found.width {
        Ok((found, entry))
    } else {
        Err(Refusal::ValueLength)
    }
}

// Rows 11 and 14: the slot is not held by another, and the disk has room for the update and for its compensation.
fn check_late(
    found: Slot,
    entry: Entry,
    work: &[u64],
    disks: u64,
    ring: u64,
    start: u64,
    number: u64,
) -> Result<(), Refusal>
    requires disks_bound { (disks ≤ 8) × (found.at < 8192) × (found.width ≤ 32) × (head_words + (buffer_at disks + 64 + found.at) < length work.now) }
    requires sum_bound { entry.tail + entry.fill + entry.sum ≤ limit }
    ensures { (h : Carried) → own_work h work.now ≡ true → h.disks ≡ disks
        → row_in result ≡ cond (in_table (core_of h work.now).table (owner_of (core_of h work.now).sizes (drop head_words work.now) found.at)
        && not (eqb (owner_of (core_of h work.now).sizes (drop head_words work.now) found.at) number)) 11
        (cond (room_for start (entry.tail + entry.fill) entry.sum ring (2 * words_of update_kind found.width)) 0 14) }
{
    if is_locked(work, disks, found.at, number) {
        return Err(Refusal::Held);
    }
    let need = 2 * words_of(UPDATE, found.width as u64);
    if fits_ring(start, entry.tail + entry.fill, entry.sum, ring, need) {
        Ok(())
    } else {
        Err(Refusal::NoRoom)
    }
}

// Where a transaction's first update record is: the one that it has, else the log's end.
fn first_position(reserved: u64, first: u64, end: u64) -> u64
    ensures { result ≡ cond (ltb 2 reserved) first end }
{
    if CLOSE_WORDS < reserved { first } else { end }
}

// The numbers of an update that no row refuses.
fn make_plan(found: Slot, entry: Entry, work: &[u64], disks: u64, page: u64) -> Plan
    requires disks_bound { (disks ≤ 8) × (page < 64) × (found.at < 8192) × (found.width ≤ 32) × (head_words + (buffer_at disks + 64 + found.at) < length work.now) }
    requires place_bound { (entry.place < 16) × (entry.reserved ≤ entry.sum) × (entry.tail + entry.fill + entry.sum ≤ limit) }
    ensures { result ≡ plan_of found entry (buffer_at disks + 64 + found.at) (get_or work.now (head_words + (buffer_at disks + page)) 0) (get_or work.now (head_firsts + entry.place) 0) }
{
    let place = entry.place;
    let first = first_position(
        entry.reserved,
        work[FIRSTS_AT + place],
        entry.tail + entry.fill,
    );
    let words = words_of(UPDATE, found.width as u64);
    Plan {
        at: found.at,
        owner: owner_place(disks, found.at),
        copy: work[HEAD_WORDS + copy_place(disks, page)],
        place,
        first,
        reserved: entry.reserved + words,
        disk: entry.disk,
        tail: entry.tail,
        fill: entry.fill,
        sum: entry.sum + words,
    }
}

// The plan of an update of a value of so many words.
pub fn plan_update(
    carried: &Carried,
    number: u64,
    page: u64,
    slot: u64,
    width: usize,
    anchor: &[u64],
    pages: &[u64],
    backups: &[u64],
    logs: &[u64],
    work: &[u64],
) -> Result<Plan, Refusal>
    ensures { Planned carried.now (world_of anchor.now pages.now backups.now logs.now work.now) number page slot width result }
{
    let disks = carried.disks;
    let ring = carried.ring;
    let starts = carried.starts;
    let tails = carried.tails;
    check_lent(carried, anchor, pages, backups, logs, work)?;
    let asked = find_slot(work, carried.pages, carried.total, page, slot);
    let opened = find_entry(work, disks, &tails, number);
    let (found, entry) = both(asked, opened, anchor.len(), width)?;
    let start = starts[entry.disk as usize];
    check_late(found, entry, work, disks, ring, start, number)?;
    Ok(make_plan(found, entry, work, disks, page))
}
