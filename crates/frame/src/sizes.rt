// The sizes as the head of the work memory has them, tested. They are narrow where they pass: a loop over pages takes many of them at once.
ghost use Rattle.std.specs.Prelude.{◌≡◌, false, ℕ, ◌+◌, ◌≤◌, ◌<◌, length, get_or};
ghost use Rattle.model.specs.Word.{part};
ghost use Rattle.model.specs.View.{head_slots, head_widths};
ghost use Rattle.frame.specs.Sizes.{sizes_at, tested};

use head::places::{SLOTS_AT, WIDTHS_AT};
use layout::bounds::sizes_in_bounds;
use model::Sizes;

// The slots and widths of 64 pages stand side by side. The sum of what is above a byte is 0 where all of them are bytes.
fn above_bytes(work: &[u64]) -> u64
    requires { 128 ≤ length work.now }
    ensures { (result ≡ 0 → (i : ℕ) → i < 128 → get_or work.now i 0 < 256) × (((i : ℕ) → i < 128 → get_or work.now i 0 < 256) → result ≡ 0) }
{
    let mut above: u64 = 0;
    for word in &work[..128] {
        above += word / 256;
    }
    above
}

// `head::lists::bytes_at` caps each word first: here that would be work for each word that the test has done.
fn entries_at(work: &[u64], at: usize) -> [u8; 64]
    requires { (at + 64 ≤ length work.now) × ((i : ℕ) → i < 64 → get_or work.now (at + i) 0 < 256) }
    ensures { result ≡ part at 64 work.now }
{
    let mut out = [0u8; 64];
    for i in 0..64 {
        out[i] = work[at + i] as u8;
    }
    out
}

fn sizes_at(work: &[u64], pages: u64, disks: u64, ring: u64) -> Sizes
    requires { (128 ≤ length work.now) × ((i : ℕ) → i < 128 → get_or work.now i 0 < 256) }
    ensures { result ≡ sizes_at pages disks ring work.now }
{
    Sizes {
        pages,
        disks,
        ring,
        slots: entries_at(work, SLOTS_AT),
        widths: entries_at(work, WIDTHS_AT),
    }
}

// The sizes, if every page is within its bounds and T is `words`.
pub fn known_sizes(work: &[u64], pages: u64, disks: u64, ring: u64, words: u64) -> Option<Sizes>
    requires { 128 ≤ length work.now }
    ensures { result ≡ tested (sizes_at pages disks ring work.now) words }
{
    if above_bytes(work) != 0 {
        return None;
    }
    let sizes = sizes_at(work, pages, disks, ring);
    if !sizes_in_bounds(sizes) {
        return None;
    }
    if words == layout::places::total(sizes) {
        Some(sizes)
    } else {
        None
    }
}
