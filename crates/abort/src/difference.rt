// An update, taken out of the log: the slot that it changed, its difference, and how many bits of that are 1.
ghost use Rattle.std.specs.Prelude.{◌≡◌, ℕ, ◌+◌, ◌*◌, ◌≤◌, ◌<◌, length, take};
ghost use Rattle.std.proofs.lemmas.List.Edits.{sets};
ghost use Rattle.model.specs.Word.{ones_over};
ghost use Rattle.model.specs.Decode.{read_log, span};
ghost use Rattle.model.specs.State.{end_of};
ghost use Rattle.disk_log.specs.Reading.{LiesAt, Readable};
ghost use Rattle.abort.specs.Undo.{only_log, Serving, reader, site_at};

use crate::window::{buffered, extent_at};
use disk_log::read::{Extent, read_word};
use disk_log::write::Tip;
use model::Sizes;

// Where an update's record stands, the slot that it changed, and the slot's width.
#[derive(Clone, Copy)]
pub struct Site {
    pub position: u64,
    pub page: u64,
    pub slot: u64,
    pub width: u64,
}

// A difference: its words, the first of these 32, as many as the slot has, and how many of their bits are 1.
#[derive(Clone, Copy)]
pub struct Difference {
    pub words: [u64; 32],
    pub ones: u64,
}

// The site of the update at a position, by its first word.
pub fn site_at(sizes: Sizes, tip: Tip, disk: u64, position: u64, logs: &[u64], work: &[u64]) -> Site
    requires { Serving sizes (only_log disk tip) disk logs.now work.now × (position < end_of (only_log disk tip) disk) }
    ensures { result ≡ site_at (reader sizes (only_log disk tip) disk logs.now work.now) position }
{
    let extent = extent_at(sizes, tip, disk);
    let buffer = buffered(tip, disk, work);
    let w = read_word(
        logs,
        extent.place,
        extent.ring,
        extent.tail,
        buffer,
        position,
    );
    Site {
        position,
        page: w / 8 % 64,
        slot: w / 512 % 128,
        width: w / 65536,
    }
}

// Copies the n words of a log from a position on to the front of `out`, and hands back how many of their bits are 1.
fn copy_words_of_log(
    out: &mut [u64],
    logs: &[u64],
    extent: Extent,
    buffer: &[u64],
    position: u64,
    n: usize,
) -> u64
    requires readable { Readable extent logs.now buffer.now }
    requires n_bound { (position + n ≤ extent.end) × (n ≤ length out.old) × (n ≤ 32) }
    ensures { ((s : Sizes) (disk : ℕ) → LiesAt s disk extent.place extent.ring
        → (out.new ≡ sets out.old 0 (span (read_log s logs.now disk extent.tail buffer.now) position n))
        × (result ≡ ones_over (span (read_log s logs.now disk extent.tail buffer.now) position n)))
        × (result ≤ 64 * n) }
{
    let place = extent.place;
    let ring = extent.ring;
    let tail = extent.tail;
    let mut ones = 0;
    for i in 0..n {
        let word = read_word(logs, place, ring, tail, buffer, position + i as u64);
        out[i] = word;
        ones += word.count_ones() as u64;
    }
    ones
}

// The difference of the update at a position.
pub fn difference_at(
    sizes: Sizes,
    tip: Tip,
    disk: u64,
    position: u64,
    width: u64,
    logs: &[u64],
    work: &[u64],
) -> Difference
    requires serving { Serving sizes (only_log disk tip) disk logs.now work.now }
    requires width_bound { (position + 3 + width ≤ end_of (only_log disk tip) disk) × (width ≤ 32) }
    ensures { (take width result.words ≡ span (reader sizes (only_log disk tip) disk logs.now work.now) (position + 3) width)
        × (result.ones ≡ ones_over (span (reader sizes (only_log disk tip) disk logs.now work.now) (position + 3) width))
        × (result.ones ≤ 2048) }
{
    let extent = extent_at(sizes, tip, disk);
    let buffer = buffered(tip, disk, work);
    let mut words = [0u64; 32];
    let ones = copy_words_of_log(
        &mut words,
        logs,
        extent,
        buffer,
        position + 3,
        width as usize,
    );
    Difference { words, ones }
}
