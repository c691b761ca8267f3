// Row 7 of a run: its first record, and the search ahead for that record's transaction. A run of no step needs no fate but that one's, and
// a run that goes on needs those of the transactions behind it too: so they search differently far.
ghost use Rattle.std.specs.Prelude.{◌≡◌, ◌<◌};
ghost use Rattle.model.specs.declared.Sizes.{Sizes};
ghost use Rattle.model.specs.Decode.{decode_at};
ghost use Rattle.model.specs.Scan.{scan, fate_in};
ghost use Rattle.disk_log.specs.Ring.{read_ring, Ring, EntriesOf, Entries};
ghost use Rattle.run.specs.Run.{Remembers, fault_at};

use crate::ahead::search_ahead;
use crate::fates::Fates;
use disk_log::ring::{advance, decode_ring};
use model::{BadRecord, Decoded, Fate};

// The search ahead for a transaction's closing record, and for nothing else: it ends there.
fn fate_in_ring(
    slots: &[u8],
    widths: &[u8],
    ring: &[u64],
    tail: u64,
    from: u64,
    number: u64,
) -> Fate
    requires { Entries slots.now widths.now × Ring ring.now tail }
    ensures { (s : Sizes) → EntriesOf s slots.now widths.now → result ≡ fate_in number (scan s (read_ring ring.now) tail from) }
{
    let size = ring.len() as u64;
    let mut p = from;
    let mut at = from % size;
    while p < tail {
        match decode_ring(slots, widths, ring, tail, p, at) {
            Decoded::Change { next, .. } => {
                at = advance(at, next - p, size);
                p = next;
            }
            Decoded::Close {
                number: n,
                next,
                ..
            } => {
                if n == number {
                    return Fate::Closed;
                }
                at = advance(at, next - p, size);
                p = next;
            }
            Decoded::Malformed => return Fate::Unreadable { position: p },
        }
    }
    Fate::Unclosed
}

// The fate that a run of `most` steps begins with. It remembers what else it met, unless no step is to be made.
fn first_fate(
    fates: &mut Fates,
    slots: &[u8],
    widths: &[u8],
    ring: &[u64],
    tail: u64,
    from: u64,
    number: u64,
    most: u64,
) -> Fate
    requires { (fates.old.used ≡ 0) × Entries slots.now widths.now × Ring ring.now tail }
    ensures { (s : Sizes) → EntriesOf s slots.now widths.now
        → (result ≡ fate_in number (scan s (read_ring ring.now) tail from))
        × Remembers (λ n. fate_in n (scan s (read_ring ring.now) tail from)) fates.new.numbers fates.new.closed fates.new.used }
{
    if most == 0 {
        return fate_in_ring(slots, widths, ring, tail, from, number);
    }
    search_ahead(fates, slots, widths, ring, tail, from, number)
}

// The fault of the record at a position, and of the search ahead from it. A run that makes a step remembers the fates that this met: the
// memory is new.
pub fn record_fault(
    fates: &mut Fates,
    slots: &[u8],
    widths: &[u8],
    ring: &[u64],
    disk: u64,
    tail: u64,
    p: u64,
    most: u64,
) -> Option<BadRecord>
    requires { (fates.old.used ≡ 0) × Entries slots.now widths.now × Ring ring.now tail × (p < tail) }
    ensures { (s : Sizes) → EntriesOf s slots.now widths.now
        → (result ≡ fault_at s (read_ring ring.now) tail disk p (decode_at s (read_ring ring.now) tail p))
        × Remembers (λ n. fate_in n (scan s (read_ring ring.now) tail p)) fates.new.numbers fates.new.closed fates.new.used }
{
    let at = p % ring.len() as u64;
    match decode_ring(slots, widths, ring, tail, p, at) {
        Decoded::Change { number, next, .. } => {
            let fate = first_fate(fates, slots, widths, ring, tail, next, number, most);
            match fate {
                Fate::Closed | Fate::Unclosed => None,
                Fate::Unreadable { position } => Some(BadRecord { disk, position }),
            }
        }
        Decoded::Close { .. } => None,
        Decoded::Malformed => Some(BadRecord { disk, position: p }),
    }
}
