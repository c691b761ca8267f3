// Damaged images: one word of a good image changed, or words at random.
use crate::devices::Devices;
use crate::reading::LIMIT;
use trial_table::random;
use trial_table::words::{get, put};

// A good image damaged; pages and work memory hold anything.
pub fn damaged(good: Devices, which: u64, seed: u64) -> Devices {
    let mut d = good;
    damage_devices(which, seed, &mut d);
    random::fill(&mut d.pages, 2, 5);
    random::fill(&mut d.work, 411, 6);
    d
}

// The first 2,248 are the single changes: eight of each word, the anchor's first, then the backups', then the log's.
fn damage_devices(which: u64, seed: u64, d: &mut Devices) {
    let word = which / 8;
    let variant = which % 8;
    match word {
        0..=147 => change(&mut d.anchor, word, variant, seed),
        148..=151 => change(&mut d.backups, word - 148, variant, seed),
        152..=280 => change(&mut d.logs, word - 152, variant, seed),
        _ => randomize(which, seed, &mut d.anchor, &mut d.logs),
    }
}

pub fn change(device: &mut [u64], at: u64, variant: u64, seed: u64) {
    let word = get(device, at);
    put(device, at, changed(word, variant, seed));
}

// A word in another's place.
fn changed(word: u64, variant: u64, seed: u64) -> u64 {
    match variant {
        0 => 0,
        1 => 1,
        2 => word.saturating_add(1),
        3 => word.saturating_sub(1),
        4 => u64::MAX,
        5 => word ^ LIMIT,
        6 => word ^ (1u64 << (seed % 64)),
        _ => seed,
    }
}

// Of the random ones half keep the anchor, and half of those the tail.
fn randomize(which: u64, seed: u64, anchor: &mut [u64], logs: &mut [u64]) {
    randomize_log(which, seed, logs);
    if which % 2 == 0 {
        random::fill(anchor, 148, seed);
    }
}

fn randomize_log(which: u64, seed: u64, logs: &mut [u64]) {
    let tail = get(logs, 0);
    random::fill(logs, 129, seed);
    if which % 4 == 1 {
        put(logs, 0, tail);
    }
}
