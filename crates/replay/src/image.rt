// What restart begin reads: the anchor's sizes and current starts, the tails, and what is wrong with the logs.
ghost use Rattle.std.specs.Prelude.{◌≡◌, true, ◌≤◌, ◌<◌, length, get_or, MatchOption};
ghost use Rattle.model.specs.Below.{first_below};
ghost use Rattle.model.specs.Sizes.{ring_of, log_words, sizes_in_bounds};
ghost use Rattle.model.specs.Anchor.{anchor_words, sizes_on, start_on};
ghost use Rattle.model.specs.Refusal.{verdict};
ghost use Rattle.model.specs.Causes.{tail_in, log_rows};
ghost use Rattle.model.specs.Checkpoint.{eight_below, per_disk};
ghost use Rattle.replay.specs.Parts.{anchor_refusal, tail_out};
ghost use Rattle.frame.specs.Refusal.{row_in, verdict_in};

use disk_log::scan::check_disks;
use frame::refusal::{Refusal, TurnedAway};
use layout::anchor::{ANCHOR_WORDS, EPOCH_WORD, read_rows, read_sizes};
use layout::bounds::{in_bounds, narrow};
use layout::disks::{disk_at, ring_of};
use model::Sizes;
use table::room::LIMIT;

// Rows 2 to 4: a wrong length, an unformatted anchor, sizes out of bounds.
pub fn check_anchor(anchor: &[u64]) -> Result<(), Refusal>
    ensures { row_in result ≡ anchor_refusal anchor.now }
{
    if anchor.len() != ANCHOR_WORDS {
        return Err(Refusal::AnchorLength);
    }
    if anchor[EPOCH_WORD] == 0 {
        return Err(Refusal::Unformatted);
    }
    if in_bounds(read_sizes(anchor)) {
        Ok(())
    } else {
        Err(Refusal::Sizes)
    }
}

// The sizes that an anchor gives.
pub fn anchor_sizes(anchor: &[u64]) -> Sizes
    requires { (length anchor.now ≡ anchor_words) × (sizes_in_bounds (sizes_on anchor.now) ≡ true) }
    ensures { result ≡ sizes_on anchor.now }
{
    narrow(read_sizes(anchor))
}

// The first n words of a row, then zeros.
fn keep_below(row: [u64; 8], n: u64) -> [u64; 8]
    requires { n ≤ 8 }
    ensures { result ≡ eight_below n (λ d. get_or row d 0) }
{
    let end = n as usize;
    let mut kept = [0u64; 8];
    kept[..end].copy_from_slice(&row[..end]);
    kept
}

// Where the retained logs start: the current row.
pub fn current_starts(disks: u64, anchor: &[u64]) -> [u64; 8]
    requires { (disks ≤ 8) × (length anchor.now ≡ anchor_words) }
    ensures { (s : Sizes) → s.disks ≡ disks → result ≡ per_disk s (start_on anchor.now) }
{
    let rows = read_rows(anchor);
    let current = (anchor[EPOCH_WORD] % 2) as usize;
    keep_below(rows[current], disks)
}

// The tails, as the log disks have them.
pub fn tails_on(sizes: Sizes, logs: &[u64]) -> [u64; 8]
    requires { (sizes.disks ≤ 8) × (sizes.ring ≤ 65536) × (log_words sizes ≤ length logs.now) }
    ensures { result ≡ per_disk sizes (tail_in sizes logs.now) }
{
    let mut tails = [0u64; 8];
    for d in 0..sizes.disks {
        let at = disk_at(sizes.ring, d) as usize;
        tails[d as usize] = logs[at];
    }
    tails
}

// The distance is tested after the order, and so without a sum, which may not fit a word.
fn tail_out(ring: u64, start: u64, tail: u64) -> bool
    ensures { result ≡ tail_out ring start tail }
{
    if tail < start {
        return true;
    }
    if ring < tail - start {
        return true;
    }
    LIMIT < tail
}

// The lowest disk whose tail is wrong.
fn wrong_tail(sizes: Sizes, starts: [u64; 8], tails: [u64; 8]) -> Option<u64>
    requires { sizes.disks ≤ 8 }
    ensures { MatchOption result
        (first_below (λ d. tail_out (ring_of sizes d) (get_or starts d 0) (get_or tails d 0)) sizes.disks ≡ sizes.disks)
        (λ disk. (disk < sizes.disks) × (disk ≡ first_below (λ d. tail_out (ring_of sizes d) (get_or starts d 0) (get_or tails d 0)) sizes.disks)) }
{
    for d in 0..sizes.disks {
        let ring = ring_of(sizes, d);
        if tail_out(ring, starts[d as usize], tails[d as usize]) {
            return Some(d);
        }
    }
    None
}

// Rows 6 and 7 of logs with these tails that are read from these starts: a wrong tail, then a malformed record.
pub fn check_logs(
    sizes: Sizes,
    starts: [u64; 8],
    tails: [u64; 8],
    logs: &[u64],
) -> Result<(), TurnedAway>
    requires { (sizes_in_bounds sizes ≡ true) × (length logs.now ≡ log_words sizes) × (tails ≡ per_disk sizes (tail_in sizes logs.now)) }
    ensures { verdict (log_rows sizes (λ d. get_or starts d 0) logs.now) ≡ verdict_in result }
{
    if let Some(disk) = wrong_tail(sizes, starts, tails) {
        return Err(TurnedAway {
            refusal: Refusal::Tail,
            first: disk,
            second: 0,
        });
    }
    match check_disks(sizes, logs, starts) {
        Some(bad) => Err(TurnedAway {
            refusal: Refusal::Malformed,
            first: bad.disk,
            second: bad.position,
        }),
        None => Ok(()),
    }
}
