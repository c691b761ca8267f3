// The log on paper, compared line by line and byte by byte with a reading of the devices' words that does not use the store. For each size
// - a run fills the logs, over several checkpoints, and leaves a new state;
// - every line by itself, the lines in pieces of seven, and all at once, must be what the reading gives, and leave the other bytes;
// - so must those of the same log far out, where its positions have nineteen digits;
// - wrong stages, slices and bytes must be refused;
// - with a word of the devices changed, a listing must answer as a restart's begin does, and show what then stands.
// Standard input may begin with a number: how many changed images of each size are tried (300 where there is none).
#![tactic(auto)]

mod comparing;
mod damaging;
mod machine;
mod reading;
mod requests;
mod running;
mod shown;

use crate::comparing::Out;
use crate::damaging::try_images;
use crate::machine::{Anchor, Logs, Machine};
use crate::reading::{disk_at, no_notes, note_records, start_at};
use crate::requests::{Found, try_listing, try_refusals};
use crate::running::run;
use std::fmt::Write;
use trial_table::shape::{Shape, log_words};
use trial_table::text::{Output, read_number};
use trial_table::words::add_to;

// Raises the positions of all disks by a multiple of the ring's size, up to near 2^62.
fn raise(anchor: &mut Anchor, logs: &mut Logs, disks: u64) {
    for disk in 0..disks {
        let start = start_at(anchor, disk);
        let tail = disk_at(anchor, disk);
        add_to(anchor, start, 4611686018360279040);
        add_to(logs, tail, 4611686018360279040);
    }
}

// The same log, far out.
fn far_out(m: Machine, shape: Shape) -> Machine {
    let mut raised = m;
    raise(&mut raised.anchor, &mut raised.logs, shape.disks);
    raised
}

fn records_of(m: Machine) -> u64 {
    note_records(&m.anchor, &m.logs, &mut no_notes())
}

fn try_size(shape: Shape, images: u64, out: &mut Out) {
    let m = run(shape, 8);
    let words = log_words(shape);
    let near = try_listing(Found::default(), words, &m.anchor, &m.logs, out);
    let raised = far_out(m, shape);
    let far = try_listing(near, words, &raised.anchor, &raised.logs, out);
    let refused = try_refusals(far, m.state, words, &m.anchor, &m.logs, out);
    let mut counts = [0; 16];
    let found = try_images(refused, m, words, images, &mut counts, out);
    tell(shape, records_of(m), found, &counts);
}

// `counts[0]` changed images were taken, and `counts[number]` refused with a number.
fn tell(shape: Shape, records: u64, found: Found, counts: &[u64; 16]) {
    let mut out = Output;
    let _ = write!(
        out,
        "D = {}: {records} records; {} lines and {} refusals compared; changed images by a restart's begin: {} taken",
        shape.disks, found.lines, found.refusals, counts[0]
    );
    for number in 1..16 {
        let images = counts[number];
        if images > 0 {
            let _ = write!(out, ", {images} refused with {number}");
        }
    }
    let _ = writeln!(out, "; {} disagreements", found.faults);
}

fn main() {
    let mut out = [0u8; 36500];
    let images = read_number(300);
    let slots = Shape {
        pages: 1,
        disks: 1,
        ring: 1536,
        width: 1,
        words: 128,
    };
    let fives = Shape {
        pages: 2,
        disks: 2,
        ring: 512,
        width: 5,
        words: 125,
    };
    let mixed = Shape {
        pages: 4,
        disks: 3,
        ring: 512,
        width: 0,
        words: 0,
    };
    for shape in [slots, fives, mixed] {
        try_size(shape, images, &mut out);
    }
}
