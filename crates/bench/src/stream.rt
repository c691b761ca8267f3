// The stream that every contestant gets: pseudo-random numbers.

pub const SEED: u64 = 88172645463325252;

// xorshift64.
pub fn next(seed: u64) -> u64 {
    let a = seed ^ (seed << 13);
    let b = a ^ (a >> 7);
    b ^ (b << 17)
}

// The product of the low halves.
pub fn product(a: u64, b: u64) -> u64 {
    (a % 4294967296) * (b % 4294967296)
}

// A number below n, from the low half of r.
pub fn pick(r: u64, n: u64) -> u64 {
    product(r, n) / 4294967296
}

// A slot's new value: word k is r XOR k.
pub fn spread(value: &mut [u64], r: u64) {
    for (k, word) in value.iter_mut().enumerate() {
        *word = r ^ k as u64;
    }
}
