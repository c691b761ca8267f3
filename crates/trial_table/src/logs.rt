// What the calls do to the disks' logs, as the room memory has them: records appended and flushed, starts moved by a checkpoint, what lost
// power leaves, and the steps of a restart. So the stores that a call makes, and where it is cut, are known.
use crate::rooms::{
    buffered, disk_at, end_of, fill_at, first_at, mark_at, owed_at, record_of, records_in,
    start_at, steps_at, tail_at,
};
use crate::words::{add_to, get, put, tail_mut, wipe};

// The stores that are left of an allowance, none once it was used up.
pub type Budget = Option<u64>;

// The stores of a flush: the buffer's words, then the tail.
fn flush_stores(rooms: &[u64], disk: u64) -> u64 {
    let words = buffered(rooms, disk);
    if words > 0 {
        words.saturating_add(1)
    } else {
        0
    }
}

pub fn flush(rooms: &mut [u64], disk: u64, budget: Budget) -> Budget {
    let left = budget?.checked_sub(flush_stores(rooms, disk))?;
    drain(rooms, disk);
    Some(left)
}

// The buffered words lie below the tail now.
fn drain(rooms: &mut [u64], disk: u64) {
    let end = end_of(rooms, disk);
    put(rooms, tail_at(disk), end);
    put(rooms, fill_at(disk), 0);
}

// A record is appended, or nothing where the budget is used up; where it does not fit the buffer's free words, that is flushed first.
pub fn append(rooms: &mut [u64], disk: u64, words: u64, budget: Budget) -> Budget {
    let left = make_room(rooms, disk, words, budget)?;
    add_to(rooms, fill_at(disk), record_of(words));
    Some(left)
}

fn make_room(rooms: &mut [u64], disk: u64, words: u64, budget: Budget) -> Budget {
    if buffered(rooms, disk).saturating_add(words) <= 64 {
        return budget;
    }
    flush(rooms, disk, budget)
}

// All disks are flushed, in order.
pub fn flush_all(rooms: &mut [u64], disks: u64, budget: Budget) -> Budget {
    let mut after = budget;
    for disk in 0..disks {
        after = flush(rooms, disk, after);
    }
    after
}

// A checkpoint's begin remembers each end.
pub fn mark(rooms: &mut [u64], disks: u64) {
    for disk in 0..disks {
        let end = end_of(rooms, disk);
        put(rooms, mark_at(disk), end);
    }
}

// A checkpoint's end moves each start to the remembered end, or to the first record of a transaction that is still open.
pub fn move_starts(rooms: &mut [u64], disks: u64) {
    for disk in (0..disks).rev() {
        let start = new_start(rooms, disk);
        put(rooms, start_at(disk), start);
    }
}

fn new_start(rooms: &[u64], disk: u64) -> u64 {
    (0..16)
        .filter(|&place| holds_back(rooms, disk, place))
        .map(|place| get(rooms, first_at(place)))
        .fold(get(rooms, mark_at(disk)), u64::min)
}

// A transaction with no update holds no start back.
fn holds_back(rooms: &[u64], disk: u64, place: u64) -> bool {
    get(rooms, disk_at(place)) == disk && get(rooms, owed_at(place)) > 2
}

// What lost power leaves: the starts and the tails.
pub fn lose(rooms: &mut [u64]) {
    wipe(tail_mut(rooms, fill_at(0)), 8);
    wipe(tail_mut(rooms, owed_at(0)), 32);
}

// A restart's end leaves no retained log.
pub fn empty(rooms: &mut [u64]) {
    wipe(rooms, 16);
}

// The steps of a source that are left in a restart: a record or a page each.
pub fn steps_left(rooms: &[u64], disks: u64, pages: u64, source: u64) -> u64 {
    let tail = get(rooms, tail_at(source));
    let retained = tail.saturating_sub(get(rooms, start_at(source)));
    let all = if source < disks {
        records_in(retained)
    } else {
        pages
    };
    all.saturating_sub(get(rooms, steps_at(source)))
}

pub fn replay(rooms: &mut [u64], source: u64, steps: u64) {
    add_to(rooms, steps_at(source), steps);
}
