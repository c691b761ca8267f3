// How many bits an update changes, and an abort changes back: against the plain table, bit by bit.
use crate::calls::{Call, laid_value};
use crate::shape::{Shape, address_of, width_of};
use crate::words::{get, tail, tally};
use crate::write_sets;

// In how many bits two words differ. It goes bit by bit: the store counts them by one instruction, and is compared with this.
fn word_ones(a: u64, b: u64) -> u64 {
    let mut x = a;
    let mut y = b;
    let mut count = 0;
    for _ in 0..64 {
        count = tally(count, x % 2 != y % 2);
        x /= 2;
        y /= 2;
    }
    count
}

// The same over the first n words of two slices.
fn ones(a: &[u64], b: &[u64], n: u64) -> u64 {
    (0..n)
        .map(|i| word_ones(get(a, i), get(b, i)))
        .fold(0, u64::saturating_add)
}

// What an update changes: its value, and that of its slot with the entries made so far.
pub fn update_ones(shape: Shape, entries: u64, call: Call, book: &[u64]) -> u64 {
    let value = laid_value(call);
    let address = address_of(shape, call.page, call.slot);
    let before = write_sets::current_at(book, entries, address);
    ones(&value, tail(book, before), width_of(shape, call.page))
}

// What an entry changed, if it is the transaction's: its value, and that of its slot with the entries before it.
fn entry_ones(entry: u64, number: u64, book: &[u64]) -> u64 {
    let at = write_sets::entry_at(entry);
    if get(book, at) != number {
        return 0;
    }
    let before = write_sets::current_at(book, entry, get(book, at.saturating_add(1)));
    let value = tail(book, write_sets::value_at(entry));
    ones(value, tail(book, before), get(book, at.saturating_add(2)))
}

// What an abort changes back.
pub fn abort_ones(entries: u64, number: u64, book: &[u64]) -> u64 {
    (0..entries)
        .map(|entry| entry_ones(entry, number, book))
        .fold(0, u64::saturating_add)
}
