// 01's counting, and the disk of a begin by 02's S-2 and S-5, for a list of calls that nobody else disturbs: each disk's start, tail and
// buffered words, what is owed, and so whether a need fits. No record is kept, only lengths. A length of a log is one number: its words,
// and 2^32 for each record. A position is the length from the last restart's end to it.
// A room memory, the first 96 words of a book, has the starts, tails, buffered lengths and remembered ends, 8 words each; then for each
// of 16 places its disk, the position of its first update record and the words owed; then for each source the steps made of it.
use crate::classes::serves;
use crate::words::{add_to, get, put};

// Where the retained log starts, its tail, its buffered length, and the end that a checkpoint's begin remembered.
pub fn start_at(disk: u64) -> u64 {
    disk % 8
}

pub fn tail_at(disk: u64) -> u64 {
    8 + disk % 8
}

pub fn fill_at(disk: u64) -> u64 {
    16 + disk % 8
}

pub fn mark_at(disk: u64) -> u64 {
    24 + disk % 8
}

// Of a place: its disk, its first position, what it is owed.
pub fn disk_at(place: u64) -> u64 {
    32 + place % 16
}

pub fn first_at(place: u64) -> u64 {
    48 + place % 16
}

pub fn owed_at(place: u64) -> u64 {
    64 + place % 16
}

pub fn steps_at(source: u64) -> u64 {
    80 + source % 16
}

// The length of a record.
pub fn record_of(words: u64) -> u64 {
    words.saturating_add(4294967296)
}

fn words_in(length: u64) -> u64 {
    length % 4294967296
}

pub fn records_in(length: u64) -> u64 {
    length / 4294967296
}

// Tail plus buffered length.
pub fn end_of(rooms: &[u64], disk: u64) -> u64 {
    get(rooms, tail_at(disk)).saturating_add(get(rooms, fill_at(disk)))
}

// The words owed to a disk's open transactions.
fn owed_on(rooms: &[u64], disk: u64) -> u64 {
    (0..16)
        .map(|place| owed_by(rooms, disk, place))
        .fold(0, u64::saturating_add)
}

fn owed_by(rooms: &[u64], disk: u64, place: u64) -> u64 {
    if get(rooms, disk_at(place)) == disk {
        get(rooms, owed_at(place))
    } else {
        0
    }
}

// Whether a need fits.
pub fn fits(rooms: &[u64], disk: u64, ring: u64, need: u64) -> bool {
    let used = end_of(rooms, disk).saturating_sub(get(rooms, start_at(disk)));
    words_in(used)
        .saturating_add(owed_on(rooms, disk))
        .saturating_add(need)
        <= ring
}

// The disk with the fewest started blocks among those that serve a class and have room for a begin; the lowest one of several.
pub fn idlest(book: &[u64], class: u64, disks: u64, ring: u64) -> Option<u64> {
    (0..disks)
        .filter(|&disk| serves(book, class, disk) && fits(book, disk, ring, 2))
        .min_by_key(|&disk| blocks(book, disk))
}

pub fn buffered(rooms: &[u64], disk: u64) -> u64 {
    words_in(get(rooms, fill_at(disk)))
}

// The blocks of 16 words that the buffered words start.
fn blocks(rooms: &[u64], disk: u64) -> u64 {
    buffered(rooms, disk).saturating_add(15) / 16
}

// A begun transaction is owed its closing record.
pub fn begin(rooms: &mut [u64], place: u64, disk: u64) {
    put(rooms, disk_at(place), disk);
    put(rooms, first_at(place), 0);
    put(rooms, owed_at(place), 2);
}

// An update's record is owed again, for its compensation; the first one's position is remembered.
pub fn update(rooms: &mut [u64], place: u64, words: u64) {
    let first = first_of(rooms, place, words);
    put(rooms, first_at(place), first);
    add_to(rooms, owed_at(place), words);
}

// The position of a place's first update record; the last record, of so many words, is its newest.
fn first_of(rooms: &[u64], place: u64, words: u64) -> u64 {
    if get(rooms, owed_at(place)) != 2 {
        return get(rooms, first_at(place));
    }
    let disk = get(rooms, disk_at(place));
    end_of(rooms, disk).saturating_sub(record_of(words))
}

// A closed transaction is owed nothing.
pub fn close(rooms: &mut [u64], place: u64) {
    put(rooms, owed_at(place), 0);
}
