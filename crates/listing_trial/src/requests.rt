// A whole listing asked for in several ways, and requests that are refused.
use crate::comparing::{Ask, Listing, Out, asked, lines_written, refused_faults, taken_faults};
use crate::machine::{Anchor, Logs};
use crate::reading::{Notes, no_notes, note_records};
use crate::shown::lines_of;
use store::State;
use trial_table::words::front;

// What was found so far.
#[derive(Clone, Copy, Default)]
pub struct Found {
    pub lines: u64,
    pub refusals: u64,
    pub faults: u64,
}

// A call that must be refused.
pub fn try_refused(
    found: Found,
    state: State,
    ask: Ask,
    number: u64,
    anchor: &[u64],
    logs: &Logs,
    out: &mut Out,
) -> Found {
    let answer = asked(state, ask, anchor, logs, out);
    let wrong = refused_faults(answer, ask, number, 0, 0, out);
    Found {
        refusals: found.refusals.saturating_add(1),
        faults: found.faults.saturating_add(wrong),
        ..found
    }
}

// A call on devices that have so many lines: refused past the last.
fn try_call(
    found: Found,
    ask: Ask,
    anchor: &Anchor,
    logs: &Logs,
    notes: &Notes,
    lines: u64,
    out: &mut Out,
) -> Found {
    let state = store::new_state();
    if ask.first >= lines {
        return try_refused(found, state, ask, 8, anchor, logs, out);
    }
    let answer = asked(state, ask, anchor, logs, out);
    let wrong = taken_faults(answer, ask, anchor, logs, notes, lines, out);
    Found {
        lines: found.lines.saturating_add(lines_written(ask, lines)),
        faults: found.faults.saturating_add(wrong),
        ..found
    }
}

// Every line by itself, and three past the last.
fn try_each(
    before: Found,
    words: u64,
    anchor: &Anchor,
    logs: &Logs,
    notes: &Notes,
    lines: u64,
    out: &mut Out,
) -> Found {
    let mut found = before;
    for first in 0..lines.saturating_add(3) {
        let ask = Ask {
            listing: Listing::Line,
            first,
            bytes: 73,
            words,
        };
        found = try_call(found, ask, anchor, logs, notes, lines, out);
    }
    found
}

// The lines in pieces of seven, up to line 503.
fn try_pieces(
    before: Found,
    words: u64,
    anchor: &Anchor,
    logs: &Logs,
    notes: &Notes,
    lines: u64,
    out: &mut Out,
) -> Found {
    let mut found = before;
    for piece in 0..72 {
        let ask = Ask {
            listing: Listing::Lines,
            first: piece * 7,
            bytes: 511,
            words,
        };
        found = try_call(found, ask, anchor, logs, notes, lines, out);
    }
    found
}

// All lines at once, into more bytes than they need.
pub fn try_whole(found: Found, words: u64, anchor: &Anchor, logs: &Logs, out: &mut Out) -> Found {
    let mut notes = no_notes();
    let lines = lines_of(note_records(anchor, logs, &mut notes));
    let ask = Ask {
        listing: Listing::Lines,
        first: 0,
        bytes: 36500,
        words,
    };
    try_call(found, ask, anchor, logs, &notes, lines, out)
}

// All lines, one by one, in pieces, at once, and into no bytes.
pub fn try_listing(found: Found, words: u64, anchor: &Anchor, logs: &Logs, out: &mut Out) -> Found {
    let mut notes = no_notes();
    let lines = lines_of(note_records(anchor, logs, &mut notes));
    let each = try_each(found, words, anchor, logs, &notes, lines, out);
    let pieces = try_pieces(each, words, anchor, logs, &notes, lines, out);
    let none = Ask {
        listing: Listing::Lines,
        first: 0,
        bytes: 0,
        words,
    };
    let empty = try_call(pieces, none, anchor, logs, &notes, lines, out);
    try_whole(empty, words, anchor, logs, out)
}

// Both calls, which must be refused.
fn try_both(
    found: Found,
    state: State,
    ask: Ask,
    number: u64,
    anchor: &[u64],
    logs: &Logs,
    out: &mut Out,
) -> Found {
    let line = try_refused(found, state, ask, number, anchor, logs, out);
    let lines = Ask {
        listing: Listing::Lines,
        ..ask
    };
    try_refused(line, state, lines, number, anchor, logs, out)
}

// An open store, wrong bytes, and short slices.
pub fn try_refusals(
    found: Found,
    open: State,
    words: u64,
    anchor: &Anchor,
    logs: &Logs,
    out: &mut Out,
) -> Found {
    let state = store::new_state();
    let ask = Ask {
        listing: Listing::Line,
        first: 0,
        bytes: 73,
        words,
    };
    let a = try_both(found, open, ask, 1, anchor, logs, out);
    let b = try_both(a, state, ask, 2, front(anchor, 147), logs, out);
    let small = Ask { bytes: 72, ..ask };
    let c = try_both(b, state, small, 5, anchor, logs, out);
    let large = Ask { bytes: 74, ..ask };
    let d = try_both(c, state, large, 5, anchor, logs, out);
    let short = Ask {
        words: words.saturating_sub(1),
        ..ask
    };
    try_both(d, state, short, 5, anchor, logs, out)
}
