// One search ahead for the fates of all transactions that it meets, as far as the memory has room for them: it ends where all are closed.
ghost use Rattle.std.specs.Prelude.{◌≡◌, ℕ, ◌<◌, get_or};
ghost use Rattle.model.specs.declared.Sizes.{Sizes};
ghost use Rattle.model.specs.Scan.{scan, fate_in};
ghost use Rattle.disk_log.specs.Ring.{read_ring, Ring, EntriesOf, Entries};
ghost use Rattle.run.specs.Run.{Remembers};

use crate::fates::Fates;
use disk_log::ring::{advance, decode_ring};
use model::{Decoded, Fate};

// The fate of a number that is not remembered, from a position on. The numbers met on the way are put behind those that are.
pub fn search_ahead(
    fates: &mut Fates,
    slots: &[u8],
    widths: &[u8],
    ring: &[u64],
    tail: u64,
    from: u64,
    sought: u64,
) -> Fate
    requires { (fates.old.used < 16) × Entries slots.now widths.now × Ring ring.now tail }
    ensures { (s : Sizes) → EntriesOf s slots.now widths.now
        → ((i : ℕ) → i < fates.old.used → get_or fates.old.numbers i 0 ≡ sought → ⊥)
        → Remembers (λ n. fate_in n (scan s (read_ring ring.now) tail from)) fates.old.numbers fates.old.closed fates.old.used
        → (result ≡ fate_in sought (scan s (read_ring ring.now) tail from))
        × Remembers (λ n. fate_in n (scan s (read_ring ring.now) tail from)) fates.new.numbers fates.new.closed fates.new.used }
{
    let first = fates.used();
    fates.put(sought, false);
    let size = ring.len() as u64;
    let mut p = from;
    let mut at = from % size;
    while p < tail {
        match decode_ring(slots, widths, ring, tail, p, at) {
            Decoded::Change { number, next, .. } => {
                fates.meet(sought, number);
                at = advance(at, next - p, size);
                p = next;
            }
            Decoded::Close { number, next, .. } => {
                fates.close(number);
                if fates.all_closed(first) {
                    return Fate::Closed;
                }
                at = advance(at, next - p, size);
                p = next;
            }
            Decoded::Malformed => return fates.cut_short(first, p),
        }
    }
    fates.fate_at(first)
}

// A transaction's fate from a position on: remembered, or else searched for and remembered. It is called for each change.
pub fn recall(
    fates: &mut Fates,
    slots: &[u8],
    widths: &[u8],
    ring: &[u64],
    tail: u64,
    from: u64,
    number: u64,
) -> Fate
    requires { Entries slots.now widths.now × Ring ring.now tail }
    ensures { (s : Sizes) → EntriesOf s slots.now widths.now
        → Remembers (λ n. fate_in n (scan s (read_ring ring.now) tail from)) fates.old.numbers fates.old.closed fates.old.used
        → (result ≡ fate_in number (scan s (read_ring ring.now) tail from))
        × Remembers (λ n. fate_in n (scan s (read_ring ring.now) tail from)) fates.new.numbers fates.new.closed fates.new.used }
{
    if let Some(fate) = fates.known(number) {
        return fate;
    }
    fates.make_room();
    search_ahead(fates, slots, widths, ring, tail, from, number)
}
