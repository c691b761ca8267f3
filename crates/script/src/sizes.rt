// The sizes that are tried, by number, and what is told of each.
use crate::progress::Counts;
use trial_table::shape::Shape;
use trial_table::text::count;

pub fn how_many() -> u64 {
    10
}

// First 64 pages of 32 words on 8 disks, with short and long rings and slots of 1, 4 and 32 words, and with pages that differ (width 0);
// then few pages, of 128 words, on two disks whose rings are soon full.
pub fn shape_at(size: u64) -> Shape {
    let ring = if size % 2 == 0 { 128 } else { 65536 };
    match size {
        0 | 1 => large(ring, 1),
        2 | 3 => large(ring, 4),
        4 | 5 => large(ring, 32),
        6 | 7 => large(ring, 0),
        8 => small(32),
        _ => small(1),
    }
}

fn large(ring: u64, width: u64) -> Shape {
    Shape {
        pages: 64,
        disks: 8,
        ring,
        width,
        words: 32,
    }
}

fn small(width: u64) -> Shape {
    Shape {
        pages: 3,
        disks: 2,
        ring: 128,
        width,
        words: 128,
    }
}

pub fn tell(shape: Shape, counts: Counts) {
    count(shape.pages, b" pages, ");
    count(shape.disks, b" disks, ring ");
    count(shape.ring, b", width ");
    count(shape.width, b": ");
    count(counts.calls, b" calls, ");
    count(counts.agreed, b" agreed; ");
    count(counts.restarts, b" restarts, ");
    count(counts.right, b" right\n");
}
