// The bounds of the sizes, and the lengths that they give the lent slices.
ghost use Rattle.std.specs.Prelude.{◌≡◌, true, cond, ◌&&◌, ℕ, ◌*◌, ◌≤◌, ◌<◌, leb, eqb, get_or};
ghost use Rattle.model.specs.Below.{within, all_below};
ghost use Rattle.model.specs.Sizes.{entry_in_bounds, counts_in_bounds, sizes_in_bounds};
ghost use Rattle.layout.specs.Raw.{sizes_of, counts_of, lengths_are};

use crate::anchor::RawSizes;
use crate::disks::disk_at;
use crate::memory::copy_place;
use crate::places::words_in_slots;
use model::Sizes;

// Whether the lent slices have the lengths that D, W and T (`words`) give; the anchor's is fixed.
pub fn lengths_right(
    disks: u64,
    ring: u64,
    words: u64,
    pages: usize,
    backups: usize,
    logs: usize,
    work: usize,
) -> bool
    requires { (disks ≤ 8) × (ring ≤ 65536) × (words ≤ 8192) }
    ensures { result ≡ lengths_are disks ring words pages backups logs work }
{
    let all = words as usize;
    if pages != all {
        return false;
    }
    if backups != 2 * all {
        return false;
    }
    if logs as u64 != disk_at(ring, disks) {
        return false;
    }
    work == copy_place(disks, 64) + all
}

fn is_within(low: u64, high: u64, n: u64) -> bool
    ensures { result ≡ within low high n }
{
    (low..=high).contains(&n)
}

pub fn counts_in_bounds(pages: u64, disks: u64, ring: u64) -> bool
    ensures { result ≡ counts_in_bounds (counts_of pages disks ring) }
{
    is_within(1, 64, pages) && is_within(1, 8, disks) && is_within(128, 65536, ring)
}

// 0 for a used page's entry in bounds, else 1. A product of 1 to 128 has both its factors within that.
pub fn used_fault(slots: u8, width: u8) -> u8
    ensures { (result ≤ 1) × (result ≡ cond (within 1 128 slots && within 1 32 width && leb (slots * width) 128) 0 1) }
{
    let words = words_in_slots(slots, width);
    if words == 0 {
        return 1;
    }
    if words > 128 {
        return 1;
    }
    if width > 32 { 1 } else { 0 }
}

fn unused_fault(slots: u8, width: u8) -> u8
    ensures { (result ≤ 1) × (result ≡ cond (eqb slots 0 && eqb width 0) 0 1) }
{
    if slots != 0 {
        return 1;
    }
    if width != 0 { 1 } else { 0 }
}

// An entry of any numbers: what does not fit a byte is out of bounds.
fn entry_in_bounds(used: bool, slots: u64, width: u64) -> bool
    ensures { result ≡ cond used (within 1 128 slots && within 1 32 width && leb (slots * width) 128) (eqb slots 0 && eqb width 0) }
{
    if slots > 255 {
        return false;
    }
    if width > 255 {
        return false;
    }
    let slot_byte = slots as u8;
    let width_byte = width as u8;
    if used {
        return used_fault(slot_byte, width_byte) == 0;
    }
    unused_fault(slot_byte, width_byte) == 0
}

// Of any numbers.
pub fn in_bounds(raw: RawSizes) -> bool
    ensures { result ≡ sizes_in_bounds (sizes_of raw) }
{
    if !counts_in_bounds(raw.pages, raw.disks, raw.ring) {
        return false;
    }
    let end = raw.pages as usize;
    let slots = raw.slots;
    let widths = raw.widths;
    for i in 0..64 {
        if !entry_in_bounds(i < end, slots[i], widths[i]) {
            return false;
        }
    }
    true
}

// The entries of pages below `end` that are out of bounds. They are counted, and not left at the first: so the loop takes many at once.
fn used_faults<'a>(slots: &'a [u8; 64], widths: &'a [u8; 64], end: usize) -> u8
    requires { end ≤ 64 }
    ensures { (result ≤ end) × (eqb result 0 ≡ all_below (entry_in_bounds (record { pages = end; disks = 0; ring = 0; slots = slots.now; widths = widths.now })) end) }
{
    let mut faults: u8 = 0;
    for i in 0..end {
        faults += used_fault(slots[i], widths[i]);
    }
    faults
}

// Those of all entries, `before` of them below `from`.
fn all_faults<'a>(slots: &'a [u8; 64], widths: &'a [u8; 64], from: usize, before: u8) -> u8
    requires { (from ≤ 64) × (before ≤ from) × (eqb before 0 ≡ all_below (entry_in_bounds (record { pages = from; disks = 0; ring = 0; slots = slots.now; widths = widths.now })) from) }
    ensures { eqb result 0 ≡ all_below (entry_in_bounds (record { pages = from; disks = 0; ring = 0; slots = slots.now; widths = widths.now })) 64 }
{
    let mut faults = before;
    for i in from..64 {
        faults += unused_fault(slots[i], widths[i]);
    }
    faults
}

// The same of sizes whose entries are bytes.
pub fn sizes_in_bounds(sizes: Sizes) -> bool
    ensures { result ≡ sizes_in_bounds sizes }
{
    if !counts_in_bounds(sizes.pages, sizes.disks, sizes.ring) {
        return false;
    }
    let end = sizes.pages as usize;
    let slots = sizes.slots;
    let widths = sizes.widths;
    let used = used_faults(&slots, &widths, end);
    all_faults(&slots, &widths, end, used) == 0
}

fn bytes_of(words: [u64; 64]) -> [u8; 64]
    requires { (i : ℕ) → i < 64 → get_or words i 0 < 256 }
    ensures { result ≡ words }
{
    let mut bytes = [0u8; 64];
    for i in 0..64 {
        bytes[i] = words[i] as u8;
    }
    bytes
}

// The entries of sizes in bounds fit into bytes.
pub fn narrow(raw: RawSizes) -> Sizes
    requires { sizes_in_bounds (sizes_of raw) ≡ true }
    ensures { result ≡ sizes_of raw }
{
    let slots = raw.slots;
    let widths = raw.widths;
    Sizes {
        pages: raw.pages,
        disks: raw.disks,
        ring: raw.ring,
        slots: bytes_of(slots),
        widths: bytes_of(widths),
    }
}
