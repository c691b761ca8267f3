// The plain table: the write sets of the open transactions, and the results, word for word.
// Its memory, the book, is one slice: 96 words of log room (`rooms`); the open transactions' numbers, 16 words (0: none); what was last
// read, a length and 39 words; the results, 8,192 words; the sets of disks of the 256 classes (`classes`); then entries of 36 words in
// the order made: transaction (0: gone), the slot's address, its width, its value.
use crate::words::{
    find, front, get, move_words, put, put_words, same, tail, tail_mut, times, wipe,
};

pub fn open_at(place: u64) -> u64 {
    96 + place % 16
}

pub fn seen_at(i: u64) -> u64 {
    112 + i % 40
}

pub fn result_at(address: u64) -> u64 {
    address.saturating_add(152)
}

pub fn entry_at(entry: u64) -> u64 {
    times(entry, 36).saturating_add(8600)
}

pub fn value_at(entry: u64) -> u64 {
    entry_at(entry).saturating_add(3)
}

// The results, and what stands behind them.
pub fn results_of(book: &[u64]) -> &[u64] {
    tail(book, result_at(0))
}

// The place of a transaction among those open, the first free one for 0.
pub fn place_of(book: &[u64], number: u64) -> Option<u64> {
    find(tail(book, open_at(0)), 16, number)
}

// The place of an open transaction.
pub fn open_place(book: &[u64], number: u64) -> Option<u64> {
    if number > 0 {
        place_of(book, number)
    } else {
        None
    }
}

// Whether a transaction is open.
pub fn is_open(book: &[u64], number: u64) -> bool {
    open_place(book, number).is_some()
}

// The newest entry of an address.
pub fn newest(book: &[u64], entries: u64, address: u64) -> Option<u64> {
    (0..entries)
        .rev()
        .find(|&entry| is_of(book, entry, address))
}

// Where an address's value stands, with the first `entries` entries laid over the results.
pub fn current_at(book: &[u64], entries: u64, address: u64) -> u64 {
    match newest(book, entries, address) {
        Some(entry) => value_at(entry),
        None => result_at(address),
    }
}

// Whether an entry stands and is of the address.
fn is_of(book: &[u64], entry: u64, address: u64) -> bool {
    let at = entry_at(entry);
    get(book, at) > 0 && get(book, at.saturating_add(1)) == address
}

// Adds an entry; its value is the first `width` words of the one lent.
pub fn add(book: &mut [u64], entry: u64, number: u64, address: u64, width: u64, value: &[u64]) {
    put_words(book, entry_at(entry), &[number, address, width]);
    if width < 33 {
        put_words(book, value_at(entry), front(value, width));
    }
}

// Sets an entry's value in the results.
fn set_entry(book: &mut [u64], entry: u64) {
    let at = entry_at(entry);
    let address = get(book, at.saturating_add(1));
    let width = get(book, at.saturating_add(2));
    move_words(book, value_at(entry), result_at(address), width);
}

// Closes a transaction: its entries go, first to last; a committed one's are set in the results.
pub fn close(book: &mut [u64], entries: u64, number: u64, commits: bool) {
    for entry in 0..entries {
        close_entry(book, entry, number, commits);
    }
    leave(book, number);
}

// The same of one entry, if it is the transaction's.
fn close_entry(book: &mut [u64], entry: u64, number: u64, commits: bool) {
    let at = entry_at(entry);
    if get(book, at) != number {
        return;
    }
    put(book, at, 0);
    if commits {
        set_entry(book, entry);
    }
}

// Takes a transaction's number off the list of those open.
fn leave(book: &mut [u64], number: u64) {
    if let Some(place) = place_of(book, number) {
        put(book, open_at(place), 0);
    }
}

// All write sets go.
pub fn clear(book: &mut [u64]) {
    wipe(tail_mut(book, open_at(0)), 16);
}

// Notes the words that a read handed out.
pub fn note_seen(book: &mut [u64], words: &[u64]) {
    let length = words.len() as u64;
    put(book, seen_at(0), length);
    if length < 40 {
        put_words(book, seen_at(1), words);
    }
}

// Whether what was read is `width` words at a place of the book.
pub fn seen_is(book: &[u64], at: u64, width: u64) -> bool {
    get(book, seen_at(0)) == width && same(tail(book, at), tail(book, seen_at(1)), width)
}
