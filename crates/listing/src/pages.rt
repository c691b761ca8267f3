// The lines of a listing, counted from 0, and those that are wanted laid into the lent bytes: line `first` at the front, each other
// behind the one before it, as far as there is room.
ghost use Rattle.std.specs.Prelude.{◌≡◌, true, List, ◌∷◌, ◌++◌, ◌+◌, ◌-◌, ◌^◌, ◌≤◌, ◌<◌, length, get_or};
ghost use Rattle.model.specs.Below.{join_below};
ghost use Rattle.model.specs.Sizes.{log_words, sizes_in_bounds};
ghost use Rattle.model.specs.Scan.{scan};
ghost use Rattle.model.specs.Refusal.{accepted, verdict};
ghost use Rattle.model.specs.Causes.{retained_from, log_rows};
ghost use Rattle.model.specs.Listing.{Listed, shown_line, heading, listed_in};
ghost use Rattle.disk_log.specs.Ring.{read_ring, Ring, Entries, EntriesOf};
ghost use Rattle.listing.specs.Laid.{wanted, laid_line};
ghost use Rattle.listing.specs.Sheets.{shown_of, Fits, listed_as, finished, LaidAll};

use crate::columns::{put_change, put_close, put_heading};
use disk_log::ring::{decode_ring, ring_words};
use layout::disks::{disk_at, ring_of};
use model::{Decoded, Sizes};

const LINE_BYTES: u64 = 73;

// The number of the next line, and how many more records go on this page.
#[derive(Clone, Copy)]
pub struct Sheet {
    pub line: u64,
    pub left: u64,
}

// Is there a place for the line in the lent bytes?
fn is_wanted(first: u64, line: u64, bytes: u64) -> bool
    ensures { result ≡ wanted first line bytes }
{
    if line < first {
        return false;
    }
    line - first < bytes / LINE_BYTES
}

// The heading as this line, if it is wanted.
fn lay_heading(out: &mut [u8], first: u64, line: u64)
    ensures { out.new ≡ laid_line first line heading out.old }
{
    if !is_wanted(first, line, out.len() as u64) {
        return;
    }
    let at = ((line - first) * LINE_BYTES) as usize;
    put_heading(&mut out[at..at + 73]);
}

// A record as this line, if it is wanted.
fn lay_record(out: &mut [u8], first: u64, line: u64, disk: u64, position: u64, here: Decoded)
    requires { (disk < 10) × Fits here }
    ensures { out.new ≡ laid_line first line (shown_line disk position (shown_of here)) out.old }
{
    if !is_wanted(first, line, out.len() as u64) {
        return;
    }
    let at = ((line - first) * LINE_BYTES) as usize;
    match here {
        Decoded::Change {
            kind,
            page,
            slot,
            number,
            width,
            ..
        } => put_change(
            &mut out[at..at + 73],
            disk,
            position,
            kind,
            number,
            page,
            slot,
            width,
        ),
        Decoded::Close { kind, number, .. } => {
            put_close(&mut out[at..at + 73], disk, position, kind, number)
        }
        Decoded::Malformed => {}
    }
}

// The next record, after a heading where a page begins.
fn lay_next(
    out: &mut [u8],
    first: u64,
    sheet: Sheet,
    disk: u64,
    position: u64,
    here: Decoded,
) -> Sheet
    requires { (disk < 10) × Fits here × (sheet.line < 2 ^ 63) }
    ensures out_after { (more : List Listed) → finished first result more out.new
        ≡ finished first sheet (listed_as disk position here ∷ more) out.old }
    ensures line_bound { result.line ≤ sheet.line + 2 }
{
    if sheet.left == 0 {
        lay_heading(out, first, sheet.line);
        lay_record(out, first, sheet.line + 1, disk, position, here);
        return Sheet {
            line: sheet.line + 2,
            left: 59,
        };
    }
    lay_record(out, first, sheet.line, disk, position, here);
    Sheet {
        line: sheet.line + 1,
        left: sheet.left - 1,
    }
}

// The records of a disk, from `start` to its tail.
fn lay_disk(
    slots: &[u8],
    widths: &[u8],
    ring: &[u64],
    start: u64,
    tail: u64,
    disk: u64,
    out: &mut [u8],
    first: u64,
    sheet: Sheet,
) -> Sheet
    requires { Entries slots.now widths.now × Ring ring.now tail × (disk < 10) × (tail ≤ start + 65536) × (sheet.line ≤ 2 ^ 62) }
    ensures out_after { (s : Sizes) (more : List Listed) → EntriesOf s slots.now widths.now
        → finished first result more out.new
        ≡ finished first sheet (listed_in disk (scan s (read_ring ring.now) tail start) ++ more) out.old }
    ensures line_bound { result.line ≤ sheet.line + (tail - start) }
{
    let size = ring.len() as u64;
    let mut p = start;
    let mut now = sheet;
    while p < tail {
        let at = p % size;
        let here = decode_ring(slots, widths, ring, tail, p, at);
        let (Decoded::Change { next, .. } | Decoded::Close { next, .. }) = here else {
            return now;
        };
        now = lay_next(out, first, now, disk, p, here);
        p = next;
    }
    now
}

// The records of all disks; answers how many lines the listing has.
pub fn lay_disks(sizes: Sizes, starts: [u64; 8], logs: &[u64], out: &mut [u8], first: u64) -> u64
    requires { (sizes_in_bounds sizes ≡ true) × (length logs.now ≡ log_words sizes) × (verdict (log_rows sizes (λ d. get_or starts d 0) logs.now) ≡ accepted) }
    ensures { LaidAll first (join_below (λ d. listed_in d (retained_from sizes (λ e. get_or starts e 0) logs.now d)) sizes.disks) result out.old out.new }
{
    let disks = sizes.disks;
    let slots = sizes.slots;
    let widths = sizes.widths;
    let mut sheet = Sheet { line: 0, left: 0 };
    for d in 0..disks {
        let place = disk_at(sizes.ring, d);
        let ring = ring_words(logs, place, ring_of(sizes, d));
        let tail = logs[place as usize];
        sheet = lay_disk(
            &slots,
            &widths,
            ring,
            starts[d as usize],
            tail,
            d,
            out,
            first,
            sheet,
        );
    }
    sheet.line
}
