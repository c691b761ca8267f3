// A table of classes that follows from a seed: three words a line, lowest class, highest class and set of disks. Its lines cover each class
// once and stand in any order; half of the tables are spoiled then.
use crate::random::{below, next};
use crate::words::{add_to, get, put, put_words, times};

pub fn low_at(line: u64) -> u64 {
    times(line, 3)
}

pub fn high_at(line: u64) -> u64 {
    low_at(line).saturating_add(1)
}

pub fn set_at(line: u64) -> u64 {
    low_at(line).saturating_add(2)
}

// 2 to the n. A seed gives any n, and `<<` asks for one below 64.
pub fn power(n: u64) -> u64 {
    1 << (n % 64)
}

// Lays a table into a slice of zeros, and answers how many of its words are lent.
pub fn lay_lines(seed: u64, disks: u64, lines: &mut [u64]) -> u64 {
    let count = below(seed, 16).saturating_add(1);
    let laid = lay_ranges(seed, count, disks, lines);
    let mixed = mix(laid, count, lines);
    spoil(next(mixed), count, disks, lines)
}

// The classes cut into so many ranges from 0 on, each with a set; answers the last seed.
fn lay_ranges(seed: u64, count: u64, disks: u64, lines: &mut [u64]) -> u64 {
    let mut low = 0;
    let mut now = seed;
    for line in (0..count).rev() {
        now = next(next(now));
        let high = range_end(low, line.saturating_add(1), now);
        let set = some_set(disks, next(now));
        put_words(lines, low_at(line), &[low, high, set]);
        low = high.saturating_add(1);
    }
    now
}

// The last class of a range from `low` on, with so many ranges left, this one among them; the others keep a class each.
fn range_end(low: u64, left: u64, seed: u64) -> u64 {
    if left < 2 {
        return 255;
    }
    let spare = 256u64.saturating_sub(low.saturating_add(left));
    let most = times(spare, 2) / left;
    low.saturating_add(below(seed, most.saturating_add(1)))
}

// A set that is not empty, half of the time one disk.
fn some_set(disks: u64, seed: u64) -> u64 {
    if below(seed, 2) == 0 {
        return power(below(seed >> 1, disks));
    }
    below(seed >> 1, power(disks).saturating_sub(1)).saturating_add(1)
}

// Any order of the lines; answers the last seed.
fn mix(seed: u64, count: u64, lines: &mut [u64]) -> u64 {
    let mut now = seed;
    for line in (0..count).rev() {
        now = next(now);
        let other = below(now, line.saturating_add(1));
        swap_lines(lines, line, other);
    }
    now
}

fn swap_lines(lines: &mut [u64], a: u64, b: u64) {
    swap_words(lines, low_at(a), low_at(b));
    swap_words(lines, high_at(a), high_at(b));
    swap_words(lines, set_at(a), set_at(b));
}

fn swap_words(lines: &mut [u64], i: u64, j: u64) {
    let word = get(lines, i);
    let other = get(lines, j);
    put(lines, i, other);
    put(lines, j, word);
}

// Half of the tables stay. Of the others the number of words, or one line or two are wrong. Answers how many words are lent.
fn spoil(seed: u64, count: u64, disks: u64, lines: &mut [u64]) -> u64 {
    let words = times(count, 3);
    let die = below(seed, 16);
    let first = next(seed);
    let second = next(first);
    if die < 8 {
        return words;
    }
    if die == 8 {
        return wrong_length(words, below(seed >> 4, 4));
    }
    spoil_line(first, 8, below(first >> 4, count), disks, lines);
    spoil_line(second, 16, below(second >> 4, count), disks, lines);
    words
}

// No line, 17 lines, or no whole number of lines.
fn wrong_length(words: u64, die: u64) -> u64 {
    match die {
        0 => 0,
        1 => 51,
        2 => words.saturating_add(1),
        _ => words.saturating_sub(1),
    }
}

// A line, by one of so many changes: its lowest class above its highest, that above 255, no disk, a disk that there is not, or its range
// shorter, longer or shifted by a class, which leaves a class out, covers one twice, or both; from the ninth change on none.
fn spoil_line(seed: u64, changes: u64, line: u64, disks: u64, lines: &mut [u64]) {
    match below(seed, changes) {
        0 => {
            let high = get(lines, high_at(line));
            put(lines, low_at(line), high.saturating_add(1));
        }
        1 => put(lines, high_at(line), (seed >> 8).saturating_add(256)),
        2 => put(lines, set_at(line), 0),
        3 => {
            let disk = disks.saturating_add(below(seed >> 8, 3));
            add_to(lines, set_at(line), power(disk));
        }
        4 => add_to(lines, low_at(line), 1),
        5 => add_to(lines, high_at(line), 1),
        6 | 7 => shift(lines, line),
        _ => {}
    }
}

fn shift(lines: &mut [u64], line: u64) {
    add_to(lines, low_at(line), 1);
    add_to(lines, high_at(line), 1);
}
