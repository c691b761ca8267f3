// What is counted on the devices, and how it is printed.
use crate::stream::SEED;
use trial_table::random;
use trial_table::words::get;

// A digest of a list of words.
pub fn digest(words: &[u64]) -> u64 {
    random::digest(words, words.len() as u64, SEED)
}

// The words ever stored in all logs: the sum of the tails.
pub fn log_words(logs: &[u64], disks: u64, ring: u64) -> u64 {
    let mut sum: u64 = 0;
    let mut at: u64 = 0;
    for _ in 0..disks {
        sum = sum.wrapping_add(get(logs, at));
        at = at.wrapping_add(ring.wrapping_add(1));
    }
    sum
}

// A line: a name and a number.
pub fn line(name: &[u8], number: u64) {
    io::write_all(1, name);
    io::print_decimal(1, number);
    io::write_all(1, b"\n");
}
