// The slices of a size lent to a call, out of larger ones.
use crate::making::make;
use store::{Called, State};
use trial_table::calls::Call;
use trial_table::shape::{Shape, log_words, total_of, work_words};
use trial_table::words::{front_mut, times};

// How many words of a slice are lent.
fn lent(words: u64, short: u64, slice: u64) -> u64 {
    if short == slice {
        words.saturating_sub(1)
    } else {
        words
    }
}

// The slices of a size; one of them may be a word short. What a read hands out is noted in the book.
pub fn lend(
    state: State,
    shape: Shape,
    call: Call,
    anchor: &mut [u64],
    pages: &mut [u64],
    backups: &mut [u64],
    logs: &mut [u64],
    work: &mut [u64],
    book: &mut [u64],
    budget: &mut u64,
) -> Called {
    let total = total_of(shape);
    let short = call.short;
    make(
        state,
        shape,
        call,
        front_mut(anchor, lent(148, short, 1)),
        front_mut(pages, lent(total, short, 2)),
        front_mut(backups, lent(times(total, 2), short, 3)),
        front_mut(logs, lent(log_words(shape), short, 4)),
        front_mut(work, lent(work_words(shape), short, 5)),
        book,
        budget,
    )
}
