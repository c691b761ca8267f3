// The anchor: where its words lie, and what it says of the sizes and of the log starts.
ghost use Rattle.std.specs.Prelude.{◌≡◌, [], ◌∷◌, ◌+◌, length};
ghost use Rattle.model.specs.Word.{part};
ghost use Rattle.model.specs.Anchor.{anchor_words, rows_at, sizes_on};
ghost use Rattle.layout.specs.Raw.{sizes_of};

use words::copy_words;

// Named as in the definitions: the anchor's length, the checkpoint number, the two page arrays, the two rows of log starts.
pub const ANCHOR_WORDS: usize = 148;

pub const EPOCH_WORD: usize = 3;

pub const SLOTS_AT: usize = 4;

pub const WIDTHS_AT: usize = 68;

pub const ROWS_AT: usize = 132;

// The sizes as an anchor has them, or a caller: words that may be out of bounds, in two arrays, as `store::formats::format` is given them.
#[derive(Clone, Copy)]
pub struct RawSizes {
    pub pages: u64,
    pub disks: u64,
    pub ring: u64,
    pub slots: [u64; 64],
    pub widths: [u64; 64],
}

// What the anchor says of the sizes, in bounds or not.
pub fn read_sizes(anchor: &[u64]) -> RawSizes
    requires { length anchor.now ≡ anchor_words }
    ensures { sizes_of result ≡ sizes_on anchor.now }
{
    let mut slots = [0u64; 64];
    let mut widths = [0u64; 64];
    copy_words(&mut slots, 0, anchor, SLOTS_AT, 64);
    copy_words(&mut widths, 0, anchor, WIDTHS_AT, 64);
    RawSizes {
        pages: anchor[0],
        disks: anchor[1],
        ring: anchor[2],
        slots,
        widths,
    }
}

// Both rows of log starts, row 0 first. The checkpoint number tells which is current.
pub fn read_rows(anchor: &[u64]) -> [[u64; 8]; 2]
    requires { length anchor.now ≡ anchor_words }
    ensures { result ≡ part rows_at 8 anchor.now ∷ part (rows_at + 8) 8 anchor.now ∷ [] }
{
    let mut first = [0u64; 8];
    let mut second = [0u64; 8];
    copy_words(&mut first, 0, anchor, ROWS_AT, 8);
    copy_words(&mut second, 0, anchor, ROWS_AT + 8, 8);
    [first, second]
}
