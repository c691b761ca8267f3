// Where each list of the head begins; model's specs/View.antt in the code.
// By page.
pub const SLOTS_AT: usize = 0;

pub const WIDTHS_AT: usize = 64;

pub const BASES_AT: usize = 128;

// By disk.
pub const FILLS_AT: usize = 192;

pub const SUMS_AT: usize = 200;

pub const POSITIONS_AT: usize = 208;

// One word: the next page of the backup.
pub const PAGE_AT: usize = 216;

// By place of the table.
pub const NUMBERS_AT: usize = 217;

pub const DISKS_AT: usize = 233;

pub const FIRSTS_AT: usize = 249;

pub const RESERVED_AT: usize = 265;

pub const HEAD_WORDS: usize = 281;
