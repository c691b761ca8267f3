// The sizes that are tried. Every page has `words` words in slots of `width`; where width is 0 the pages differ:
// four kinds in turn, of 32 one-word, 8 four-word, one 32-word and 5 three-word slots.
use crate::words::{put, times};

#[derive(Clone, Copy)]
pub struct Shape {
    pub pages: u64,
    pub disks: u64,
    pub ring: u64,
    pub width: u64,
    pub words: u64,
}

// The words in each slot of a page.
pub fn width_of(shape: Shape, page: u64) -> u64 {
    if shape.width > 0 {
        return shape.width;
    }
    match page % 4 {
        0 => 1,
        1 => 4,
        2 => 32,
        _ => 3,
    }
}

// The slots in a page.
pub fn slots_of(shape: Shape, page: u64) -> u64 {
    if shape.width > 0 {
        return shape.words / shape.width;
    }
    match page % 4 {
        0 => 32,
        1 => 8,
        2 => 1,
        _ => 5,
    }
}

// Where a page starts in the page memory; for the number of pages, how many words there are.
pub fn start_of(shape: Shape, page: u64) -> u64 {
    if shape.width > 0 {
        return times(page, shape.words);
    }
    times(page / 4, 111).saturating_add(page % 4 * 32)
}

// Where a slot starts in the page memory.
pub fn address_of(shape: Shape, page: u64, slot: u64) -> u64 {
    let start = start_of(shape, page);
    start.saturating_add(times(slot, width_of(shape, page)))
}

// The words of the page memory.
pub fn total_of(shape: Shape) -> u64 {
    start_of(shape, shape.pages)
}

// The words of the log disks.
pub fn log_words(shape: Shape) -> u64 {
    times(shape.disks, shape.ring.saturating_add(1))
}

// The words of the work memory in which the store keeps a part of its state.
pub const HEAD_WORDS: u64 = 281;

// The words of the work memory: that head, owners, buffers, copy numbers.
pub fn work_words(shape: Shape) -> u64 {
    let buffers = times(64, shape.disks.saturating_add(1));
    HEAD_WORDS
        .saturating_add(total_of(shape))
        .saturating_add(buffers)
}

// Both arrays of a format, a word for each page that there is.
pub fn list_pages(shape: Shape, slots: &mut [u64], widths: &mut [u64]) {
    for page in 0..shape.pages {
        put(slots, page, slots_of(shape, page));
        put(widths, page, width_of(shape, page));
    }
}
