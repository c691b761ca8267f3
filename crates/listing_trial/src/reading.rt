// The retained records by 01's words, with no help of the store. Only for devices that a restart takes: nothing is checked.
use crate::machine::{Anchor, Logs};
use trial_table::words::{get, times};

// Where a record stands.
#[derive(Clone, Copy)]
pub struct Note {
    pub disk: u64,
    pub position: u64,
}

pub type Notes = [Note; 768];

// Notes of no record.
pub fn no_notes() -> Notes {
    [Note {
        disk: 0,
        position: 0,
    }; 768]
}

// Where a disk's words begin: its tail, then its ring.
pub fn disk_at(anchor: &Anchor, disk: u64) -> u64 {
    times(disk, get(anchor, 2).saturating_add(1))
}

// Where the start of a disk stands in the current row.
pub fn start_at(anchor: &Anchor, disk: u64) -> u64 {
    times(get(anchor, 3) % 2, 8)
        .saturating_add(disk)
        .saturating_add(132)
}

// The word at a position of a disk.
pub fn ring_word(anchor: &Anchor, logs: &Logs, disk: u64, position: u64) -> u64 {
    let size = get(anchor, 2);
    if size == 0 {
        return 0;
    }
    let ring = disk_at(anchor, disk).saturating_add(1);
    get(logs, ring.saturating_add(position % size))
}

// The words of a record with this first word.
fn record_words(head: u64) -> u64 {
    if head % 8 > 1 {
        2
    } else {
        (head / 65536).saturating_add(3)
    }
}

// The note of a record, and that of none past the last.
pub fn note_at(notes: &Notes, record: u64) -> Note {
    notes.get(record as usize).copied().unwrap_or(Note {
        disk: 0,
        position: 0,
    })
}

// Notes a disk's records behind so many others, and answers how many there are then.
fn note_disk(anchor: &Anchor, logs: &Logs, disk: u64, notes: &mut Notes, count: u64) -> u64 {
    let tail = get(logs, disk_at(anchor, disk));
    let mut at = get(anchor, start_at(anchor, disk));
    let mut n = count;
    for _ in 0..768 {
        if at >= tail {
            return n;
        }
        if let Some(note) = notes.get_mut(n as usize) {
            *note = Note { disk, position: at };
        }
        n = n.saturating_add(1);
        at = at.saturating_add(record_words(ring_word(anchor, logs, disk, at)));
    }
    n
}

// Notes the records of all disks, and answers how many there are.
pub fn note_records(anchor: &Anchor, logs: &Logs, notes: &mut Notes) -> u64 {
    let mut count = 0;
    for disk in 0..get(anchor, 1) {
        count = note_disk(anchor, logs, disk, notes, count);
    }
    count
}

// The words of all pages.
pub fn page_words(anchor: &Anchor) -> u64 {
    let mut total: u64 = 0;
    for page in 0..64 {
        let slots = get(anchor, 4 + page);
        total = total.saturating_add(times(slots, get(anchor, 68 + page)));
    }
    total
}
