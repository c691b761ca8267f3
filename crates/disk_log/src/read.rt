// Reading a log: a word, and a record.
ghost use Rattle.std.specs.Prelude.{◌≡◌, Bool, not, ◌||◌, ℕ, ◌+◌, ◌^◌, ◌≤◌, ◌<◌, leb, eqb, length};
ghost use Rattle.model.specs.declared.Sizes.{Sizes};
ghost use Rattle.model.specs.declared.Decoded.TheVariants.{Change};
ghost use Rattle.model.specs.Decode.{
  read_log,
  kind_field,
  page_field,
  slot_field,
  width_field,
  misplaced,
  decoded_close,
  decode_at,
};
ghost use Rattle.disk_log.specs.Reading.{PagesOf, LiesAt, extent_of, Readable};

use crate::kinds::record_size;
use layout::disks::{disk_at, ring_of};
use model::{Decoded, Sizes};

// What a reader needs of a disk's log: the index of its tail word in the logs of all disks, its ring size, its tail, and where it ends.
#[derive(Clone, Copy)]
pub struct Extent {
    pub place: u64,
    pub ring: u64,
    pub tail: u64,
    pub end: u64,
}

// The extent of a disk's log with this tail, read up to `end`.
pub fn extent_of(sizes: Sizes, disk: u64, tail: u64, end: u64) -> Extent
    requires { (disk ≤ 8) × (sizes.ring ≤ 65536) }
    ensures { result ≡ extent_of sizes disk tail end }
{
    Extent {
        place: disk_at(sizes.ring, disk),
        ring: ring_of(sizes, disk),
        tail,
        end,
    }
}

// The word at position p of a disk's log: below the tail the ring's, from the tail on the buffer's. It takes numbers, since a struct
// would be copied for each word.
pub fn read_word(logs: &[u64], place: u64, ring: u64, tail: u64, buffer: &[u64], p: u64) -> u64
    requires { (1 ≤ ring) × (place + 1 + ring ≤ length logs.now) × (p < tail + length buffer.now) }
    ensures { (s : Sizes) (disk : ℕ) → LiesAt s disk place ring → result ≡ read_log s logs.now disk tail buffer.now p }
{
    if p < tail {
        let at = (place + 1 + p % ring) as usize;
        return logs[at];
    }
    let at = (p - tail) as usize;
    buffer[at]
}

// Are slot and width of a change's first word not those of a page that has so many slots of such a width?
pub fn is_unlike(w: u64, slots: u64, width: u64) -> bool
    ensures { result ≡ (leb slots (slot_field w) || not (eqb (width_field w) width)) }
{
    slots <= w / 512 % 128 || w / 65536 != width
}

// Are the fields of a change's first word not those of a page? The two lists are any numbers.
fn is_misplaced(pages: u64, slots: &[u64], widths: &[u64], w: u64) -> bool
    requires { (length slots.now ≡ 64) × (length widths.now ≡ 64) }
    ensures { (s : Sizes) → PagesOf s pages slots.now widths.now → result ≡ misplaced s w }
{
    let page = w / 8 % 64;
    let at = page as usize;
    pages <= page || is_unlike(w, slots[at], widths[at])
}

// A closing record by its two words, if its other fields are not set.
pub fn decode_close(w: u64, number: u64, next: u64) -> Decoded
    ensures { result ≡ decoded_close w number next }
{
    if w / 8 != 0 {
        return Decoded::Malformed;
    }
    Decoded::Close {
        kind: w % 8,
        number,
        next,
    }
}

// A change by its first three words.
fn change_of(w: u64, number: u64, copy: u64, next: u64) -> Decoded
    ensures { result ≡ Change (kind_field w) (page_field w) (slot_field w) number copy (width_field w) next }
{
    Decoded::Change {
        kind: w % 8,
        page: w / 8 % 64,
        slot: w / 512 % 128,
        number,
        copy,
        width: w / 65536,
        next,
    }
}

// What stands at position p of a log that ends at `end`. `word` reads the word at a position, and `is_outside` tells of a change's first
// word whether its fields are not those of a page: where the words and the pages lie is left to the caller.
pub fn decode<W: Fn(u64) -> u64, O: Fn(u64) -> bool>(
    word: W,
    is_outside: O,
    end: u64,
    p: u64,
) -> Decoded
    requires reads { (q : ℕ) → p ≤ q → q ≤ p + 2 → q < end → W.pre word q }
    requires tells { (w : ℕ) → w < 2 ^ 64 → O.pre is_outside w }
    requires inside { (p < end) × (end ≤ 2 ^ 63) }
    ensures { (s : Sizes) (read : ℕ → ℕ) → ((q n : ℕ) → p ≤ q → q ≤ p + 2 → q < end → W.post word q n → n ≡ read q)
        → ((w : ℕ) (b : Bool) → w < 2 ^ 64 → O.post is_outside w b → b ≡ misplaced s w) → result ≡ decode_at s read end p }
{
    let w = word(p);
    let kind = w % 8;
    let Some(n) = record_size(kind, w / 65536) else {
        return Decoded::Malformed;
    };
    let next = p + n;
    if end < next {
        return Decoded::Malformed;
    }
    let number = word(p + 1);
    if number == 0 {
        return Decoded::Malformed;
    }
    if 2 <= kind {
        return decode_close(w, number, next);
    }
    let copy = word(p + 2);
    if is_outside(w) {
        return Decoded::Malformed;
    }
    change_of(w, number, copy, next)
}

// What stands at position p of a log. P, slots and widths are handed in as numbers.
pub fn decode_at(
    pages: u64,
    slots: &[u64],
    widths: &[u64],
    logs: &[u64],
    extent: Extent,
    buffer: &[u64],
    p: u64,
) -> Decoded
    requires { (length slots.now ≡ 64) × (length widths.now ≡ 64) × Readable extent logs.now buffer.now × (p < extent.end) }
    ensures { (s : Sizes) (disk : ℕ) → PagesOf s pages slots.now widths.now → LiesAt s disk extent.place extent.ring
        → result ≡ decode_at s (read_log s logs.now disk extent.tail buffer.now) extent.end p }
{
    let place = extent.place;
    let ring = extent.ring;
    let tail = extent.tail;
    decode(
        |q| read_word(logs, place, ring, tail, buffer, q),
        |w| is_misplaced(pages, slots, widths, w),
        extent.end,
        p,
    )
}
