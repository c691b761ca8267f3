// Pseudo-random words: xorshift, with the period 2^64 - 1.
use crate::words::{get, put};

// The seed after this one; no seed is 0.
pub fn next(seed: u64) -> u64 {
    let a = seed ^ (seed << 13);
    let b = a ^ (a >> 7);
    let c = b ^ (b << 17);
    if c == 0 { 88172645463325252 } else { c }
}

// A number below n, from a seed's upper bits; 0 where n is 0.
pub fn below(seed: u64, n: u64) -> u64 {
    if n == 0 { 0 } else { (seed >> 20) % n }
}

// Fills the first n words, the last one first, with what follows the seed, and answers the last seed.
pub fn fill(target: &mut [u64], n: u64, seed: u64) -> u64 {
    let mut now = seed;
    for i in (0..n).rev() {
        now = next(now);
        put(target, i, now);
    }
    now
}

// A digest of the first n words, on top of another.
pub fn digest(s: &[u64], n: u64, seed: u64) -> u64 {
    (0..n).fold(seed, |now, i| next(now ^ get(s, i)))
}
