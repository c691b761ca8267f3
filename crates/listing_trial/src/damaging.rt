// Damaged devices: a listing must be refused where a restart's begin is, with the same number and values, and show what stands where it is
// taken. A begin's 13 is no cause for a listing.
use crate::comparing::{Ask, Listing, Out, asked, refused_faults};
use crate::machine::{Anchor, Logs, Machine};
use crate::reading::{disk_at, page_words};
use crate::requests::{Found, try_whole};
use damage::changes::change;
use model::Answer;
use store::Called;
use store::restarts::restart_begin;
use trial_table::answers::{number_of, second_of, value_of};
use trial_table::random;
use trial_table::random::below;
use trial_table::shape::HEAD_WORDS;
use trial_table::words::{add_to, front, front_mut, get, times};

// A begin that is lent so many words of the logs. The slices that a listing is not lent are as long as the sizes on the anchor say: so a 5
// is the logs'.
fn begun(
    anchor: &Anchor,
    pages: &mut [u64],
    backups: &[u64],
    logs: &[u64],
    work: &mut [u64],
    words: u64,
) -> Called {
    let total = page_words(anchor);
    let buffers = times(64, get(anchor, 1).saturating_add(1));
    restart_begin(
        store::new_state(),
        anchor,
        front_mut(pages, total),
        front(backups, times(total, 2)),
        front(logs, words),
        front_mut(
            work,
            HEAD_WORDS.saturating_add(total).saturating_add(buffers),
        ),
    )
}

// What a begin answers.
fn begin_answer(anchor: &Anchor, logs: &Logs, words: u64) -> Answer {
    let mut pages = [0u64; 512];
    let backups = [0u64; 1024];
    let mut work = [0u64; 1100];
    let called = begun(anchor, &mut pages, &backups, logs, &mut work, words);
    called.answer
}

// A word of the anchor: mostly c, a start, or any.
fn anchor_word(seed: u64) -> u64 {
    match below(seed, 4) {
        0 => 3,
        1 | 2 => below(random::next(seed), 16).saturating_add(132),
        _ => below(random::next(seed), 148),
    }
}

// A word of the logs: a tail, or any.
fn log_word(anchor: &Anchor, words: u64, seed: u64) -> u64 {
    let other = random::next(seed);
    if below(seed, 4) == 0 {
        disk_at(anchor, below(other, get(anchor, 1)))
    } else {
        below(other, words)
    }
}

// Devices with a word of the anchor, or of the logs, changed in one of eight ways.
fn damaged(m: Machine, words: u64, seed: u64) -> Machine {
    let mut image = m;
    let first = random::next(seed);
    let second = random::next(first);
    let variant = below(second, 8);
    if below(seed, 2) == 0 {
        change(&mut image.anchor, anchor_word(first), variant, second);
    } else {
        let at = log_word(&image.anchor, words, first);
        change(&mut image.logs, at, variant, second);
    }
    image
}

// One image, tried. `counts` has how many were refused with each number.
fn try_image(
    found: Found,
    words: u64,
    anchor: &Anchor,
    logs: &Logs,
    counts: &mut [u64; 16],
    out: &mut Out,
) -> Found {
    let begin = begin_answer(anchor, logs, words);
    let number = number_of(begin);
    add_to(counts, number, 1);
    if number == 0 || number == 13 {
        return try_whole(found, words, anchor, logs, out);
    }
    let ask = Ask {
        listing: Listing::Line,
        first: 0,
        bytes: 73,
        words,
    };
    let answer = asked(store::new_state(), ask, anchor, logs, out);
    let wrong = refused_faults(answer, ask, number, value_of(begin), second_of(begin), out);
    Found {
        refusals: found.refusals.saturating_add(1),
        faults: found.faults.saturating_add(wrong),
        ..found
    }
}

// So many images.
pub fn try_images(
    before: Found,
    m: Machine,
    words: u64,
    images: u64,
    counts: &mut [u64; 16],
    out: &mut Out,
) -> Found {
    let mut seed: u64 = 362436069;
    let mut found = before;
    for _ in 0..images {
        seed = random::next(random::next(random::next(seed)));
        let image = damaged(m, words, seed);
        found = try_image(found, words, &image.anchor, &image.logs, counts, out);
    }
    found
}
