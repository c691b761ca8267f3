// Reading a disk's ring on by index: no position is divided by the ring's size but the first.
ghost use Rattle.std.specs.Prelude.{◌≡◌, ℕ, ◌+◌, ◌%◌, ◌≤◌, ◌<◌, length};
ghost use Rattle.model.specs.Word.{part};
ghost use Rattle.model.specs.Decode.{misplaced, decode_at};
ghost use Rattle.disk_log.specs.Ring.{read_ring, Ring, InRing, EntriesOf};

use crate::read::{decode, is_unlike};
use model::{Decoded, Sizes};

// The words of the ring whose tail word is at `place`.
pub fn ring_words<'a>(logs: &'a [u64], place: u64, size: u64) -> &'a [u64]
    requires { place + (size + 1) ≤ length logs.now }
    ensures { result.now ≡ part (place + 1) size logs.now }
{
    let from = (place + 1) as usize;
    &logs[from..from + size as usize]
}

// The index n words further on, in a ring of so many words.
pub fn advance(at: u64, n: u64, size: u64) -> u64
    requires { (at < size) × (n ≤ size) × (size ≤ 65536) }
    ensures { (result < size) × ((p : ℕ) → at ≡ p % size → result ≡ (p + n) % size) }
{
    let next = at + n;
    if next < size { next } else { next - size }
}

// The word at position q, which lies a few words on from p; `at` is the index of p.
fn word_on(ring: &[u64], p: u64, at: u64, q: u64) -> u64
    requires { (35 ≤ length ring.now) × (length ring.now ≤ 65536) × (at ≡ p % length ring.now) × (p ≤ q) × (q ≤ p + 35) }
    ensures { result ≡ read_ring ring.now q }
{
    let there = advance(at, q - p, ring.len() as u64);
    ring[there as usize]
}

// Are the fields of a change's first word not those of a page? Entries from P on are 0: a page that is not there has no slot.
pub fn is_outside(slots: &[u8], widths: &[u8], w: u64) -> bool
    requires { (length slots.now ≡ 64) × (length widths.now ≡ 64) }
    ensures { (s : Sizes) → EntriesOf s slots.now widths.now → result ≡ misplaced s w }
{
    let page = (w / 8 % 64) as usize;
    is_unlike(w, slots[page] as u64, widths[page] as u64)
}

// What stands at position p, whose index is `at`, of a log that is read to its tail.
pub fn decode_ring(slots: &[u8], widths: &[u8], ring: &[u64], tail: u64, p: u64, at: u64) -> Decoded
    requires { (length slots.now ≡ 64) × (length widths.now ≡ 64) × Ring ring.now tail × InRing ring.now tail p at }
    ensures { (s : Sizes) → EntriesOf s slots.now widths.now → result ≡ decode_at s (read_ring ring.now) tail p }
{
    decode(
        |q| word_on(ring, p, at, q),
        |w| is_outside(slots, widths, w),
        tail,
        p,
    )
}
