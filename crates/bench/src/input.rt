// The sizes, as decimal numbers in the order of Plan's first eight fields. What is too large counts as the largest, what is missing as 0.
ghost use Rattle.std.specs.Prelude.{◌≤◌};

use crate::stream::product;

#[derive(Clone, Copy)]
pub struct Plan {
    pub pages: u64,
    pub slots: u64,
    pub width: u64,
    pub disks: u64,
    pub ring: u64,
    pub transactions: u64,
    pub restarts: u64,
    pub steps: u64,
    pub memory: u64,
    pub copies: u64,
    pub rings: u64,
    pub scratch: u64,
}

// A number with one more digit; any other byte leaves it.
fn with_digit(number: u64, byte: u8) -> u64 {
    if !byte.is_ascii_digit() || 100000000000000 < number {
        return number;
    }
    number * 10 + u64::from(byte - b'0')
}

// Which number the next byte belongs to.
fn place_after(place: usize, byte: u8) -> usize
    ensures { result ≤ 7 }
{
    if 7 <= place {
        return 7;
    }
    if byte <= b' ' { place + 1 } else { place }
}

// The first eight numbers of a text; one byte of white space stands between two.
fn numbers(text: &[u8]) -> [u64; 8] {
    let mut found = [0u64; 8];
    let mut place: usize = 0;
    for &byte in text {
        found[place] = with_digit(found[place], byte);
        place = place_after(place, byte);
    }
    found
}

// The lengths of the lent slices follow from the sizes.
fn planned(sizes: [u64; 8]) -> Plan {
    let [
        pages,
        slots,
        width,
        disks,
        ring,
        transactions,
        restarts,
        steps,
    ] = sizes;
    let p = pages.min(64);
    let s = slots.min(128);
    let w = width.min(32);
    let d = disks.min(8);
    let r = ring.min(65536);
    let t = product(product(p, s), w).min(8192);
    Plan {
        pages: p,
        slots: s,
        width: w,
        disks: d,
        ring: r,
        transactions: transactions.min(4000000000),
        restarts,
        steps,
        memory: t,
        copies: 2 * t,
        rings: product(d, r + 1).min(524296),
        scratch: t + 64 * d + 345,
    }
}

pub fn plan_of(text: &[u8]) -> Plan {
    planned(numbers(text))
}
