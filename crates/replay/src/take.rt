// What a restart step XORs into the pages: a record's difference, a page of the backup.
ghost use Rattle.std.specs.Prelude.{◌≡◌, [], true, cond, ℕ, ◌+◌, ◌*◌, ◌≤◌, ◌<◌, length};
ghost use Rattle.model.specs.Word.{part};
ghost use Rattle.model.specs.Sizes.{page_base, page_words, total, sizes_in_bounds};
ghost use Rattle.model.specs.Anchor.{backup_at};
ghost use Rattle.model.specs.Decode.{read_log, span};
ghost use Rattle.model.specs.Image.{xor_at};
ghost use Rattle.disk_log.specs.Reading.{LiesAt, Readable};

use disk_log::read::{Extent, read_word};
use layout::backup::backup_at;
use layout::places::{page_base, page_words};
use model::Sizes;
use words::xor_in;

// XORs the n words below the tail of a disk's log that start at position `from` into pages at `at`.
fn xor_span(pages: &mut [u64], at: u64, logs: &[u64], extent: Extent, from: u64, n: u64)
    requires { Readable extent logs.now [] × (at + n ≤ length pages.old) × (from + n ≤ extent.tail) }
    ensures { (s : Sizes) (disk : ℕ) → LiesAt s disk extent.place extent.ring
        → pages.new ≡ xor_at at (span (read_log s logs.now disk extent.tail []) from n) pages.old }
{
    let place = extent.place;
    let ring = extent.ring;
    let tail = extent.tail;
    let none = &logs[0..0];
    for i in 0..n {
        let word = read_word(logs, place, ring, tail, none, from + i);
        let here = (at + i) as usize;
        pages[here] ^= word;
    }
}

// The same if `replays` says so, and else nothing.
pub fn replay_span(
    replays: bool,
    pages: &mut [u64],
    at: u64,
    logs: &[u64],
    extent: Extent,
    from: u64,
    n: u64,
)
    requires { Readable extent logs.now [] × (at + n ≤ length pages.old) × (from + n ≤ extent.tail) }
    ensures { (s : Sizes) (disk : ℕ) → LiesAt s disk extent.place extent.ring
        → pages.new ≡ cond replays (xor_at at (span (read_log s logs.now disk extent.tail []) from n) pages.old) pages.old }
{
    if replays {
        xor_span(pages, at, logs, extent, from, n);
    }
}

// XORs a page of the current backup into the pages.
pub fn xor_page(pages: &mut [u64], backups: &[u64], sizes: Sizes, epoch: u64, page: u64)
    requires { (sizes_in_bounds sizes ≡ true) × (page < sizes.pages) × (length pages.old ≡ total sizes) × (length backups.now ≡ 2 * total sizes) }
    ensures { pages.new ≡ xor_at (page_base sizes page) (part (backup_at sizes epoch + page_base sizes page) (page_words sizes page) backups.now) pages.old }
{
    let base = page_base(sizes, page);
    let n = page_words(sizes, page);
    let from = backup_at(sizes, epoch) + base;
    xor_in(pages, base as usize, backups, from as usize, n as usize);
}
