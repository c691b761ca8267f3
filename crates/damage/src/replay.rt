// What a restart's end must leave of an image whose begin was taken, replayed by 01's words with no help of the store.
use crate::devices::Devices;
use crate::records::{next_position, ring, row_at, start_of};
use trial_table::words::{get, put, put_words, times};

// Where the backup of a checkpoint's number starts.
fn backup_at(epoch: u64) -> u64 {
    epoch % 2 * 2
}

// A word of the page memory: the current backup's, with the difference of every record that is replayed.
fn replayed(anchor: &[u64], backups: &[u64], logs: &[u64], address: u64) -> u64 {
    let tail = get(logs, 0);
    let mut word = get(backups, backup_at(get(anchor, 3)).saturating_add(address));
    let mut at = start_of(anchor);
    for _ in 0..64 {
        word ^= change_at(anchor, logs, at, tail, address);
        at = next_position(anchor, logs, at);
    }
    word
}

// What the record at a position changes at an address; 0 where it is not replayed, or is none.
fn change_at(anchor: &[u64], logs: &[u64], at: u64, tail: u64, address: u64) -> u64 {
    let head = ring(logs, at);
    if at >= tail || head % 8 > 1 {
        return 0;
    }
    let in_backup = ring(logs, at.saturating_add(2)) < get(anchor, 3);
    if in_backup == is_closed(anchor, logs, at, tail) {
        return 0;
    }
    difference_at(anchor, logs, at, address)
}

// Whether the transaction of the record at a position has a closing record further on.
fn is_closed(anchor: &[u64], logs: &[u64], first: u64, tail: u64) -> bool {
    let number = ring(logs, first.saturating_add(1));
    let mut at = first;
    for _ in 0..64 {
        if at < tail && ring(logs, at) % 8 > 1 && ring(logs, at.saturating_add(1)) == number {
            return true;
        }
        at = next_position(anchor, logs, at);
    }
    false
}

// The word of a record's difference that lies at an address. With two words there are at most two pages, so a page starts after page 0.
fn difference_at(anchor: &[u64], logs: &[u64], at: u64, address: u64) -> u64 {
    let head = ring(logs, at);
    let page = head / 8 % 64;
    let width = get(anchor, page + 68);
    let before = times(page, times(get(anchor, 4), get(anchor, 68)));
    let slot = before.saturating_add(times(head / 512 % 128, width));
    if address < slot || address - slot >= width {
        return 0;
    }
    ring(logs, at.saturating_add(3).saturating_add(address - slot))
}

// The pages that a restart must make.
fn with_pages(d: Devices) -> Devices {
    let first = replayed(&d.anchor, &d.backups, &d.logs, 0);
    let second = replayed(&d.anchor, &d.backups, &d.logs, 1);
    Devices {
        pages: [first, second],
        ..d
    }
}

// The stores of a restart's end: the pages to the other backup, the tail into the other row, c.
fn with_stores(d: Devices) -> Devices {
    let mut after = d;
    store_pages(&d.anchor, &mut after.backups, &d.pages);
    store_anchor(&mut after.anchor, &d.logs);
    after
}

fn store_pages(anchor: &[u64], backups: &mut [u64], pages: &[u64]) {
    let next = get(anchor, 3).saturating_add(1);
    put_words(backups, backup_at(next), pages);
}

fn store_anchor(anchor: &mut [u64], logs: &[u64]) {
    let next = get(anchor, 3).saturating_add(1);
    put(anchor, row_at(next), get(logs, 0));
    put(anchor, 3, next);
}

// The devices and pages after a restart's end.
pub fn restarted(d: Devices) -> Devices {
    with_stores(with_pages(d))
}
