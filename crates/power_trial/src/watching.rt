// A call made, and whether one that has to leave the slices did.
use calling::lending::lend;
use store::{Called, State};
use trial_table::calls::Call;
use trial_table::random::digest;
use trial_table::shape::Shape;

// What a call handed back, the budget after it, and whether it left what it has to leave.
#[derive(Clone, Copy)]
pub struct Made {
    pub called: Called,
    pub left: u64,
    pub kept: bool,
}

pub fn watch(
    state: State,
    shape: Shape,
    call: Call,
    budget: u64,
    anchor: &mut [u64],
    pages: &mut [u64],
    backups: &mut [u64],
    logs: &mut [u64],
    work: &mut [u64],
    book: &mut [u64],
) -> Made {
    let short = call.short;
    let before = seal(short, anchor, pages, backups, logs, work);
    let mut left = budget;
    let called = lend(
        state, shape, call, anchor, pages, backups, logs, work, book, &mut left,
    );
    let kept = before == seal(short, anchor, pages, backups, logs, work);
    Made { called, left, kept }
}

// A digest of the slices, of the logs the first 8,192 words, for a call that is lent a short one and has to leave all; none for any other.
fn seal(
    short: u64,
    anchor: &[u64],
    pages: &[u64],
    backups: &[u64],
    logs: &[u64],
    work: &[u64],
) -> Option<u64> {
    if short == 0 {
        return None;
    }
    let a = digest(anchor, 148, 1);
    let b = digest(pages, pages.len() as u64, a);
    let c = digest(backups, backups.len() as u64, b);
    let d = digest(logs, 8192, c);
    Some(digest(work, work.len() as u64, d))
}
