// The tests that a state made by the calls passes, but for those of its sizes.
ghost use Rattle.std.specs.Prelude.{◌≡◌, true, ◌&&◌, ℕ, ◌+◌, ◌≤◌, ◌<◌, min, leb, ltb, eqb, get_or, replicate};
ghost use Rattle.model.specs.Below.{within, all_below};
ghost use Rattle.model.specs.State.{limit, places, reserved_for, disk_sound, place_sound, checkpoint_sound};
ghost use Rattle.table.specs.Parts.{cap, entries_of, table_of, logs_of, core_of, room_for, log_sound, entry_sound, end_within, position_within};

use crate::counted::add_place;
use crate::place::CLOSE_WORDS;
use crate::room::{LIMIT, has_room};
use model::{Core, Logs};

// start ≤ position ≤ tail + fill, without the sum, which may not fit a word.
fn covers(start: u64, tail: u64, fill: u64, position: u64) -> bool
    ensures { result ≡ within start (tail + fill) position }
{
    start <= position && position.saturating_sub(tail) <= fill
}

// The bounds of one disk's log, and that the words reserved on it are kept right: they are these, at most the cap.
fn disk_sound(start: u64, tail: u64, fill: u64, kept: u64, reserved: u64, ring: u64) -> bool
    ensures { result ≡ (eqb kept reserved && leb fill 64 && leb start tail && room_for start (tail + fill) kept ring 0) }
{
    if kept != reserved {
        return false;
    }
    if 64 < fill {
        return false;
    }
    if tail < start {
        return false;
    }
    has_room(start, tail, fill, kept, ring, 0)
}

// The same of every disk, `sums` being the words that the places reserve on each.
fn disks_sound<'a>(
    disks: usize,
    ring: u64,
    starts: &'a [u64; 8],
    tails: &'a [u64; 8],
    fills: &'a [u64; 8],
    kept: &'a [u64; 8],
    sums: &'a [u64; 8],
) -> bool
    requires { disks ≤ 8 }
    ensures { result ≡ all_below (log_sound ring (logs_of starts.now tails.now fills.now) kept.now sums.now) disks }
{
    for d in 0..disks {
        if !disk_sound(starts[d], tails[d], fills[d], kept[d], sums[d], ring) {
            return false;
        }
    }
    true
}

// The bounds of one entry. A free place and a transaction without an update have no first position to test.
fn entry_sound<'a>(
    disks: usize,
    starts: &'a [u64; 8],
    tails: &'a [u64; 8],
    fills: &'a [u64; 8],
    number: u64,
    disk: u64,
    first: u64,
    reserved: u64,
) -> bool
    requires { disks ≤ 8 }
    ensures { result ≡ entry_sound disks (logs_of starts.now tails.now fills.now) number disk first reserved }
{
    if number == 0 {
        return true;
    }
    let d = disk as usize;
    if d >= disks {
        return false;
    }
    if reserved < CLOSE_WORDS {
        return false;
    }
    if reserved == CLOSE_WORDS {
        return true;
    }
    covers(starts[d], tails[d], fills[d], first)
}

// The bounds of every entry, `homes` being the disks of the table; and, if all are within them, the words reserved on each disk.
fn places_sound<'a>(
    sums: &mut [u64],
    disks: usize,
    starts: &'a [u64; 8],
    tails: &'a [u64; 8],
    fills: &'a [u64; 8],
    numbers: &'a [u64; 16],
    homes: &'a [u64; 16],
    firsts: &'a [u64; 16],
    reserved: &'a [u64; 16],
) -> bool
    requires { (disks ≤ 8) × (sums.old ≡ replicate 8 0) }
    ensures d_after { result ≡ true → (d : ℕ) → d < 8 → get_or sums.new d 0 ≡ min cap (reserved_for (table_of numbers.now homes.now reserved.now) d) }
    ensures value { result ≡ all_below (place_sound (core_of disks 0 (logs_of starts.now tails.now fills.now) (entries_of numbers.now homes.now firsts.now reserved.now))) places }
{
    for i in 0..16 {
        if !entry_sound(
            disks,
            starts,
            tails,
            fills,
            numbers[i],
            homes[i],
            firsts[i],
            reserved[i],
        ) {
            return false;
        }
        add_place(sums, numbers[i], homes[i], reserved[i]);
    }
    true
}

// The disks and the table of an open or copying state.
pub fn serving_bounds(core: Core) -> bool
    requires { core.sizes.disks ≤ 8 }
    ensures { result ≡ (all_below (disk_sound core) core.sizes.disks && all_below (place_sound core) places) }
{
    let disks = core.sizes.disks as usize;
    let mut sums = [0u64; 8];
    if !places_sound(
        &mut sums,
        disks,
        &core.logs.starts,
        &core.logs.tails,
        &core.logs.fills,
        &core.table.numbers,
        &core.table.disks,
        &core.table.firsts,
        &core.table.reserved,
    ) {
        return false;
    }
    disks_sound(
        disks,
        core.sizes.ring,
        &core.logs.starts,
        &core.logs.tails,
        &core.logs.fills,
        &core.table.sums,
        &sums,
    )
}

// Each remembered end lies in its log.
fn ends_sound(disks: usize, logs: Logs, ends: [u64; 8]) -> bool
    requires { disks ≤ 8 }
    ensures { result ≡ all_below (end_within logs ends) disks }
{
    for d in 0..disks {
        if !covers(logs.starts[d], logs.tails[d], logs.fills[d], ends[d]) {
            return false;
        }
    }
    true
}

// What a copying state passes beside `serving_bounds`.
pub fn checkpoint_bounds(core: Core) -> bool
    requires { core.sizes.disks ≤ 8 }
    ensures { result ≡ checkpoint_sound core }
{
    if core.epoch >= LIMIT {
        return false;
    }
    let checkpoint = core.checkpoint;
    if checkpoint.copied > core.sizes.pages {
        return false;
    }
    let disks = core.sizes.disks as usize;
    let logs = core.logs;
    let ends = checkpoint.ends;
    ends_sound(disks, logs, ends)
}

// A tail, and the next position to replay, which is at or below it.
fn position_sound(tail: u64, position: u64) -> bool
    ensures { result ≡ (leb tail limit && leb position tail) }
{
    tail <= LIMIT && position <= tail
}

fn positions_sound(disks: usize, tails: [u64; 8], positions: [u64; 8]) -> bool
    requires { disks ≤ 8 }
    ensures { result ≡ all_below (position_within tails positions) disks }
{
    for d in 0..disks {
        if !position_sound(tails[d], positions[d]) {
            return false;
        }
    }
    true
}

// A replaying state, but for its sizes.
pub fn replay_bounds(core: Core) -> bool
    requires { core.sizes.disks ≤ 8 }
    ensures { result ≡ (ltb core.epoch limit && leb core.replay.page core.sizes.pages && all_below (position_within core.logs.tails core.replay.positions) core.sizes.disks) }
{
    if core.epoch >= LIMIT {
        return false;
    }
    let replay = core.replay;
    if replay.page > core.sizes.pages {
        return false;
    }
    let disks = core.sizes.disks as usize;
    let logs = core.logs;
    let tails = logs.tails;
    let positions = replay.positions;
    positions_sound(disks, tails, positions)
}
