// One record of a log in a run, with no state handed on.
ghost use Rattle.std.specs.Prelude.{◌≡◌, ◌-◌, ◌≤◌, ◌<◌, length, MatchOption};
ghost use Rattle.model.specs.declared.Sizes.{Sizes};
ghost use Rattle.model.specs.Decode.{decode_at};
ghost use Rattle.model.specs.Scan.{scan, fate_in};
ghost use Rattle.disk_log.specs.Ring.{read_ring, Ring, InRing};
ghost use Rattle.run.specs.Run.{Remembers, LaidOf, Laid, Takes};

use crate::ahead::recall;
use crate::fates::Fates;
use disk_log::ring::{advance, decode_ring};
use model::{Decoded, Fate};
use replay::record::is_replayed;
use replay::ring::replay_ring;

// Takes the record at p, whose index is `at`, and answers where the next one stands; one that is malformed, or whose transaction's fate
// cannot be read, stays.
pub fn take_record(
    fates: &mut Fates,
    slots: &[u8],
    widths: &[u8],
    bases: &[u64],
    ring: &[u64],
    tail: u64,
    p: u64,
    at: u64,
    epoch: u64,
    pages: &mut [u64],
) -> Option<u64>
    requires { Ring ring.now tail × InRing ring.now tail p at × (length bases.now ≡ 64) × Laid slots.now widths.now bases.now pages.old }
    ensures onward { MatchOption result Unit (λ next. (p < next) × (next - p ≤ 35) × (next ≤ tail)) }
    ensures takes { (s : Sizes) → LaidOf s slots.now widths.now bases.now pages.old
        → Remembers (λ n. fate_in n (scan s (read_ring ring.now) tail p)) fates.old.numbers fates.old.closed fates.old.used
        → MatchOption result
        (Takes s epoch tail (read_ring ring.now) p pages.old pages.new p (decode_at s (read_ring ring.now) tail p))
        (λ next. Takes s epoch tail (read_ring ring.now) p pages.old pages.new next (decode_at s (read_ring ring.now) tail p)
        × Remembers (λ n. fate_in n (scan s (read_ring ring.now) tail next)) fates.new.numbers fates.new.closed fates.new.used) }
{
    match decode_ring(slots, widths, ring, tail, p, at) {
        Decoded::Change {
            page,
            slot,
            number,
            copy,
            width,
            next,
            ..
        } => {
            let fate = recall(fates, slots, widths, ring, tail, next, number);
            if let Fate::Unreadable { .. } = fate {
                return None;
            }
            let replays = is_replayed(epoch, fate, copy);
            let to = bases[page as usize] + slot * width;
            let from = advance(at, 3, ring.len() as u64);
            replay_ring(replays, pages, to, ring, from, width);
            Some(next)
        }
        Decoded::Close { number, next, .. } => {
            fates.forget(number);
            Some(next)
        }
        Decoded::Malformed => None,
    }
}
