// A record by its first two words: what an abort looks at of those of other transactions. A position of the ring is not divided by
// its size but where a turn of the ring begins.
ghost use Rattle.std.specs.Prelude.{◌≡◌, cond, ℕ, ◌≤◌, ◌<◌, ◌^◌, ltb, length, MatchOption};
ghost use Rattle.model.specs.declared.Sizes.{Sizes};
ghost use Rattle.model.specs.Decode.{read_log, decode_words};
ghost use Rattle.disk_log.specs.Reading.{LiesAt, Readable};
ghost use Rattle.disk_log.specs.Ring.{EntriesOf};
ghost use Rattle.disk_log.specs.Front.{InTurn, FrontAt, Measured, is_update_of};

use crate::kinds::{UPDATE, record_size};
use crate::read::{Extent, read_word};
use crate::ring::is_outside;

// The positions from `low` up to `near` lie one after the other in the ring, from its first word on.
#[derive(Clone, Copy)]
pub struct Turn {
    pub low: u64,
    pub near: u64,
}

// The first two words of a record.
#[derive(Clone, Copy)]
pub struct Front {
    pub first: u64,
    pub number: u64,
}

// The turn of the ring that position p lies in, or the one before it where that has a record's first two words at p.
pub fn turn_at(turn: Turn, ring: u64, tail: u64, p: u64) -> Turn
    requires { (1 ≤ ring) × (ring ≤ 65536) × (p < 2 ^ 63) × InTurn ring tail p turn }
    ensures { InTurn ring tail p result }
{
    if p + 1 < turn.near {
        return turn;
    }
    let low = p - p % ring;
    let next = low + ring;
    if tail < next {
        return Turn { low, near: tail };
    }
    Turn { low, near: next }
}

// The first two words of what stands at position p; the second is 0 where the log ends before it.
pub fn front_at(logs: &[u64], extent: Extent, buffer: &[u64], turn: Turn, p: u64) -> Front
    requires { Readable extent logs.now buffer.now × (p < extent.end) × InTurn extent.ring extent.tail p turn }
    ensures { (s : Sizes) (disk : ℕ) → LiesAt s disk extent.place extent.ring
        → FrontAt (read_log s logs.now disk extent.tail buffer.now) extent.end p result }
{
    let place = extent.place;
    let ring = extent.ring;
    let tail = extent.tail;
    if p + 1 < turn.near {
        let at = (place + 1 + (p - turn.low)) as usize;
        return Front {
            first: logs[at],
            number: logs[at + 1],
        };
    }
    let first = read_word(logs, place, ring, tail, buffer, p);
    if p + 1 < extent.end {
        let number = read_word(logs, place, ring, tail, buffer, p + 1);
        return Front { first, number };
    }
    Front { first, number: 0 }
}

// The words of a record by its first two words, if they are those of a record.
pub fn record_words(slots: &[u8], widths: &[u8], front: Front) -> Option<u64>
    requires { (length slots.now ≡ 64) × (length widths.now ≡ 64) }
    ensures size { MatchOption result Unit (λ n. (0 < n) × (n < 2 ^ 49)) }
    ensures words { (s : Sizes) → EntriesOf s slots.now widths.now → (stop p copy : ℕ)
        → MatchOption result (Measured (decode_words s stop p front.first front.number copy) stop p 0)
        (λ n. Measured (decode_words s stop p front.first front.number copy) stop p n) }
{
    let w = front.first;
    let kind = w % 8;
    if front.number == 0 {
        return None;
    }
    let Some(n) = record_size(kind, w / 65536) else {
        return None;
    };
    if kind < 2 {
        if is_outside(slots, widths, w) {
            return None;
        }
        return Some(n);
    }
    if w / 8 == 0 { Some(n) } else { None }
}

// Is it an update record of the transaction?
pub fn is_update_of(front: Front, number: u64) -> bool
    ensures { result ≡ is_update_of number front }
{
    front.first % 8 == UPDATE && front.number == number
}

// Where the part of a log that p lies in ends: the ring's part at the tail, the buffer's at the end.
pub fn part_end(tail: u64, end: u64, p: u64) -> u64
    ensures { result ≡ cond (ltb p tail) tail end }
{
    if p < tail { tail } else { end }
}
