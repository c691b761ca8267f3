// Reading a log on: the search ahead for a transaction's close, and the check of all disks.
ghost use Rattle.std.specs.Prelude.{◌≡◌, ℕ, length, get_or};
ghost use Rattle.model.specs.Decode.{read_log};
ghost use Rattle.model.specs.Scan.{scan, fate_in};
ghost use Rattle.model.specs.Causes.{fault_from};
ghost use Rattle.disk_log.specs.Reading.{PagesOf, LiesAt, OfLog, Readable, Checkable};

use crate::read::{Extent, decode_at};
use crate::ring::{decode_ring, ring_words};
use layout::disks::{disk_at, ring_of};
use model::{BadRecord, Decoded, Fate, Sizes};

// The search ahead for a transaction's closing record.
pub fn fate_from(
    pages: u64,
    slots: &[u64],
    widths: &[u64],
    logs: &[u64],
    extent: Extent,
    buffer: &[u64],
    from: u64,
    number: u64,
) -> Fate
    requires { (length slots.now ≡ 64) × (length widths.now ≡ 64) × Readable extent logs.now buffer.now × OfLog pages slots.now widths.now extent }
    ensures { (s : Sizes) (disk : ℕ) → PagesOf s pages slots.now widths.now → LiesAt s disk extent.place extent.ring
        → result ≡ fate_in number (scan s (read_log s logs.now disk extent.tail buffer.now) extent.end from) }
{
    let end = extent.end;
    let mut p = from;
    while p < end {
        match decode_at(pages, slots, widths, logs, extent, buffer, p) {
            Decoded::Change { next, .. } => p = next,
            Decoded::Close {
                number: n,
                next,
                ..
            } => {
                if n == number {
                    return Fate::Closed;
                }
                p = next;
            }
            Decoded::Malformed => return Fate::Unreadable { position: p },
        }
    }
    Fate::Unclosed
}

// The check of every disk's log, read from its start: the first malformed record of the lowest disk that has one.
pub fn check_disks(sizes: Sizes, logs: &[u64], starts: [u64; 8]) -> Option<BadRecord>
    requires { Checkable sizes logs.now }
    ensures { result ≡ fault_from sizes (λ d. get_or starts d 0) logs.now sizes.disks 0 }
{
    let disks = sizes.disks;
    let slots = sizes.slots;
    let widths = sizes.widths;
    for d in 0..disks {
        let place = disk_at(sizes.ring, d);
        let ring = ring_words(logs, place, ring_of(sizes, d));
        let size = ring.len() as u64;
        let tail = logs[place as usize];
        let mut p = starts[d as usize];
        while p < tail {
            let at = p % size;
            let here = decode_ring(&slots, &widths, ring, tail, p, at);
            let (Decoded::Change { next, .. } | Decoded::Close { next, .. }) = here else {
                return Some(BadRecord {
                    disk: d,
                    position: p,
                });
            };
            p = next;
        }
    }
    None
}
