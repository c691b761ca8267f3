// A call that lists, on bytes that hold marks, compared with the lines that its devices' words ask for.
use crate::machine::{Anchor, Logs};
use crate::reading::Notes;
use crate::shown::{Shown, byte_of, shown_at};
use model::Answer;
use store::State;
use store::listings::{list_line, list_lines};
use trial_table::answers::{number_of, second_of, stores_of, value_of};
use trial_table::words::{front, tally, times};

// Bytes of 500 lines.
pub type Out = [u8; 36500];

// Which of the two calls is made: for one line, or for as many as there are bytes for.
#[derive(Clone, Copy)]
pub enum Listing {
    Line,
    Lines,
}

// The line `first`, or the lines from it on, into so many bytes. So many words of the logs are lent.
#[derive(Clone, Copy)]
pub struct Ask {
    pub listing: Listing,
    pub first: u64,
    pub bytes: u64,
    pub words: u64,
}

// The byte that stands at a place before a call.
fn mark(i: u64) -> u8 {
    (128 + i % 100) as u8
}

fn byte_at(s: &Out, i: u64) -> u8 {
    s.get(i as usize).copied().unwrap_or(0)
}

// Puts marks into the first n bytes.
fn put_marks(out: &mut Out, n: u64) {
    for (i, byte) in front_bytes(out, n).iter_mut().enumerate() {
        *byte = mark(i as u64);
    }
}

// The first n bytes, or all where there are fewer.
fn front_bytes(s: &mut [u8], n: u64) -> &mut [u8] {
    let j = n as usize;
    if j <= s.len() { &mut s[0..j] } else { s }
}

fn listed(state: State, ask: Ask, anchor: &[u64], logs: &[u64], out: &mut [u8]) -> Answer {
    match ask.listing {
        Listing::Line => list_line(state, ask.first, anchor, logs, out),
        Listing::Lines => list_lines(state, ask.first, anchor, logs, out),
    }
}

// Lends so many bytes and words.
fn lent(state: State, ask: Ask, anchor: &[u64], logs: &[u64], out: &mut [u8]) -> Answer {
    listed(
        state,
        ask,
        anchor,
        front(logs, ask.words),
        front_bytes(out, ask.bytes),
    )
}

// Makes the call on marks.
pub fn asked(state: State, ask: Ask, anchor: &[u64], logs: &Logs, out: &mut Out) -> Answer {
    put_marks(out, ask.bytes);
    lent(state, ask, anchor, logs, out)
}

// How many of the bytes from `from` to `end` hold something else than their marks.
fn mark_faults(out: &Out, from: u64, end: u64) -> u64 {
    let mut faults = 0;
    for at in from..end {
        faults = tally(faults, byte_at(out, at) != mark(at));
    }
    faults
}

// In how many bytes a line differs.
fn line_faults(shown: Shown, out: &Out, at: u64) -> u64 {
    let mut faults = 0;
    for column in 0..73 {
        let byte = byte_at(out, at.saturating_add(u64::from(column)));
        faults = tally(faults, byte != byte_of(shown, column));
    }
    faults
}

// In how many bytes so many lines differ, line `first` at the front.
fn lines_faults(
    anchor: &Anchor,
    logs: &Logs,
    notes: &Notes,
    first: u64,
    lines: u64,
    out: &Out,
) -> u64 {
    let mut faults: u64 = 0;
    for line in 0..lines {
        let shown = shown_at(anchor, logs, notes, first.saturating_add(line));
        faults = faults.saturating_add(line_faults(shown, out, times(line, 73)));
    }
    faults
}

// How many lines a call with this request writes, of so many that there are.
pub fn lines_written(ask: Ask, lines: u64) -> u64 {
    lines.saturating_sub(ask.first).min(ask.bytes / 73)
}

// Whether a taken call's answer is right; it is followed by the bytes.
fn is_taken(answer: Answer, value: u64) -> bool {
    number_of(answer) == 0 && stores_of(answer) == 0 && value_of(answer) == value
}

// What is wrong with a call that must be taken.
pub fn taken_faults(
    answer: Answer,
    ask: Ask,
    anchor: &Anchor,
    logs: &Logs,
    notes: &Notes,
    lines: u64,
    out: &Out,
) -> u64 {
    let written = lines_written(ask, lines);
    let value = match ask.listing {
        Listing::Line => 0,
        Listing::Lines => written,
    };
    let bytes = lines_faults(anchor, logs, notes, ask.first, written, out);
    let rest = mark_faults(out, times(written, 73), ask.bytes);
    tally(bytes.saturating_add(rest), !is_taken(answer, value))
}

// What is wrong with a call that must be refused with this number and these values, and leave the bytes.
pub fn refused_faults(
    answer: Answer,
    ask: Ask,
    number: u64,
    first: u64,
    second: u64,
    out: &Out,
) -> u64 {
    let right = number_of(answer) == number
        && value_of(answer) == first
        && second_of(answer) == second;
    tally(mark_faults(out, 0, ask.bytes), !right)
}
