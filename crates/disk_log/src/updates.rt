// The updates that an abort takes back: a survey of the log that it reads, and the positions of some of them.
ghost use Rattle.std.specs.Prelude.{◌≡◌, true, cond, ℕ, ◌+◌, ◌*◌, ◌/◌, ◌%◌, ◌≤◌, ◌<◌, eqb, length, set};
ghost use Rattle.model.specs.Sizes.{sizes_in_bounds};
ghost use Rattle.model.specs.Decode.{read_log};
ghost use Rattle.model.specs.Scan.{scan, ring_then_buffer};
ghost use Rattle.disk_log.specs.Reading.{LiesAt, Readable, positions_in};
ghost use Rattle.disk_log.specs.Front.{Surveyed, Has, Gathered};

use crate::front::{Turn, front_at, is_update_of, part_end, record_words, turn_at};
use crate::kinds::words_of;
use crate::read::Extent;
use model::{BadRecord, Sizes};

// What a survey of a log finds: its first malformed record, and a transaction's updates up to there, counted and in words.
#[derive(Clone, Copy)]
pub struct Survey {
    pub fault: Option<BadRecord>,
    pub count: u64,
    pub words: u64,
}

// Positions of a transaction's updates, oldest first: an array with its count beside it, since the store has no heap.
#[derive(Clone, Copy)]
pub struct Group {
    pub count: u64,
    pub at: [u64; 128],
}

// Notes where an update stands if it is the first of 128.
fn note(notes: &mut [u64], count: u64, p: u64)
    requires { count < 128 * length notes.old }
    ensures { notes.new ≡ cond (eqb (count % 128) 0) (set notes.old (count / 128) p) notes.old }
{
    if count % 128 == 0 {
        notes[(count / 128) as usize] = p;
    }
}

// Reads a disk's log up to its tail and then the buffer, each record once, and notes every 128th update of a transaction.
pub fn survey_log(
    sizes: Sizes,
    logs: &[u64],
    disk: u64,
    extent: Extent,
    buffer: &[u64],
    from: u64,
    number: u64,
    notes: &mut [u64],
) -> Survey
    requires readable { Readable extent logs.now buffer.now × LiesAt sizes disk extent.place extent.ring × (sizes_in_bounds sizes ≡ true) }
    requires ring_bound { (extent.ring ≤ 65536) × (extent.tail ≤ extent.end) × (extent.end ≤ from + 65536) × (length notes.old ≡ 128) }
    ensures { Surveyed disk number (ring_then_buffer sizes (read_log sizes logs.now disk extent.tail buffer.now) extent.tail extent.end) from result notes.new }
{
    let slots = sizes.slots;
    let widths = sizes.widths;
    let mut turn = Turn { low: 0, near: 0 };
    let mut count: u64 = 0;
    let mut words: u64 = 0;
    let mut p = from;
    while p < extent.end {
        turn = turn_at(turn, extent.ring, extent.tail, p);
        let front = front_at(logs, extent, buffer, turn, p);
        let stop = part_end(extent.tail, extent.end, p);
        let Some(size) = record_words(&slots, &widths, front) else {
            let fault = Some(BadRecord { disk, position: p });
            return Survey {
                fault,
                count,
                words,
            };
        };
        let next = p + size;
        if stop < next {
            let fault = Some(BadRecord { disk, position: p });
            return Survey {
                fault,
                count,
                words,
            };
        }
        if is_update_of(front, number) {
            note(notes, count, p);
            count += 1;
            words += size;
        }
        p = next;
    }
    let fault = None;
    Survey {
        fault,
        count,
        words,
    }
}

// The positions of a transaction's next n updates. Nothing is asked of records that a survey has seen.
pub fn next_updates(
    logs: &[u64],
    extent: Extent,
    buffer: &[u64],
    from: u64,
    number: u64,
    n: u64,
) -> Group
    requires { Readable extent logs.now buffer.now × Has number n extent logs.now buffer.now from × (extent.ring ≤ 65536) × (n ≤ 128) }
    ensures { (s : Sizes) (disk : ℕ) → LiesAt s disk extent.place extent.ring
        → n ≤ length (positions_in number (scan s (read_log s logs.now disk extent.tail buffer.now) extent.end from))
        → Gathered number n (scan s (read_log s logs.now disk extent.tail buffer.now) extent.end from) result }
{
    let mut at = [0u64; 128];
    let mut turn = Turn { low: 0, near: 0 };
    let mut count: u64 = 0;
    let mut p = from;
    while count < n {
        turn = turn_at(turn, extent.ring, extent.tail, p);
        let front = front_at(logs, extent, buffer, turn, p);
        let w = front.first;
        let next = p + words_of(w % 8, w / 65536);
        if is_update_of(front, number) {
            at[count as usize] = p;
            count += 1;
        }
        p = next;
    }
    Group { count, at }
}
