// A record's difference XORed in out of a log's ring, and where all pages begin, found once for many records.
ghost use Rattle.std.specs.Prelude.{◌≡◌, cond, ℕ, ◌+◌, ◌%◌, ◌≤◌, ◌<◌, length, get_or};
ghost use Rattle.model.specs.Sizes.{page_base};
ghost use Rattle.model.specs.Decode.{span};
ghost use Rattle.model.specs.Image.{xor_at};
ghost use Rattle.disk_log.specs.Ring.{read_ring};

use layout::places::words_in_slots;
use model::Sizes;
use words::xor_in;

// The first word of each page, of any sizes: `layout::bases::bases_of` asks for sizes in bounds.
pub fn page_bases(sizes: Sizes) -> [u64; 64]
    ensures { (length result ≡ 64) × ((page : ℕ) → page < 64 → get_or result page 0 ≡ page_base sizes page) }
{
    let slots = sizes.slots;
    let widths = sizes.widths;
    let mut bases = [0u64; 64];
    let mut sum: u64 = 0;
    for i in 0..64 {
        bases[i] = sum;
        let words = words_in_slots(slots[i], widths[i]);
        sum += words as u64;
    }
    bases
}

// XORs n words of a ring, from an index on, into pages at `to`: in one run, or in two around the ring's end.
fn xor_ring(pages: &mut [u64], to: u64, ring: &[u64], at: u64, n: u64)
    requires { (at < length ring.now) × (n ≤ length ring.now) × (to + n ≤ length pages.old) }
    ensures { (p : ℕ) → at ≡ p % length ring.now → pages.new ≡ xor_at to (span (read_ring ring.now) p n) pages.old }
{
    let run = ring.len() as u64 - at;
    if n <= run {
        xor_in(pages, to as usize, ring, at as usize, n as usize);
        return;
    }
    xor_in(pages, to as usize, ring, at as usize, run as usize);
    xor_in(pages, (to + run) as usize, ring, 0, (n - run) as usize);
}

// The same if `replays` says so, and else nothing.
pub fn replay_ring(replays: bool, pages: &mut [u64], to: u64, ring: &[u64], at: u64, n: u64)
    requires { (at < length ring.now) × (n ≤ length ring.now) × (to + n ≤ length pages.old) }
    ensures { (p : ℕ) → at ≡ p % length ring.now → pages.new ≡ cond replays (xor_at to (span (read_ring ring.now) p n) pages.old) pages.old }
{
    if replays {
        xor_ring(pages, to, ring, at, n);
    }
}
