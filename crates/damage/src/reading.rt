// What a restart's begin must answer, read by 01's table with no help of the store. The lent slices have the lengths of one page of two
// one-word slots, one disk, W = 128.
use crate::devices::Devices;
use crate::records::{first_malformed, start_of};
use model::Answer;
use trial_table::words::{get, times};

// 2^62, the bound of positions and of checkpoint numbers.
pub const LIMIT: u64 = 4611686018427387904;

// A number of 01's table and the values that come with it.
#[derive(Clone, Copy, PartialEq, Eq)]
pub struct Refusal {
    number: u64,
    first: u64,
    second: u64,
}

impl From<u64> for Refusal {
    // A number whose values are 0.
    fn from(number: u64) -> Refusal {
        Refusal {
            number,
            first: 0,
            second: 0,
        }
    }
}

// Whether an answer is what is expected: a taken begin answers 0.
pub fn answers(answer: Answer, expected: Result<(), Refusal>) -> bool {
    match answer {
        Answer::Finished { value, .. } => value == 0 && expected == Ok(()),
        Answer::Refused {
            number,
            first,
            second,
        } => {
            expected
                == Err(Refusal {
                    number,
                    first,
                    second,
                })
        }
        Answer::Interrupted { .. } => false,
    }
}

// What a begin on these devices must answer. `short` names the slice that is lent a word short, 0 none.
pub fn wanted_on(d: Devices, short: u64) -> Result<(), Refusal> {
    wanted(&d.anchor, &d.logs, short)
}

// There is one disk, so the lowest such disk is 0.
fn wanted(anchor: &[u64], logs: &[u64], short: u64) -> Result<(), Refusal> {
    wanted_of_sizes(anchor, short)?;
    let start = start_of(anchor);
    let tail = get(logs, 0);
    if tail < start || tail - start > 128 || tail > LIMIT {
        return Err(Refusal::from(6));
    }
    if let Some(position) = first_malformed(anchor, logs, start, tail) {
        return Err(Refusal {
            number: 7,
            first: 0,
            second: position,
        });
    }
    if get(anchor, 3) >= LIMIT {
        return Err(Refusal::from(13));
    }
    Ok(())
}

// Rows 2 to 5.
fn wanted_of_sizes(anchor: &[u64], short: u64) -> Result<(), u64> {
    if short == 1 {
        return Err(2);
    }
    if get(anchor, 3) == 0 {
        return Err(3);
    }
    if !sizes_fit(anchor) {
        return Err(4);
    }
    if short > 0 || lengths_differ(anchor) {
        return Err(5);
    }
    Ok(())
}

fn sizes_fit(anchor: &[u64]) -> bool {
    let pages = get(anchor, 0);
    (1..=64).contains(&pages)
        && (1..=8).contains(&get(anchor, 1))
        && (128..=65536).contains(&get(anchor, 2))
        && (0..64).all(|page| entry_fits(anchor, page, pages))
}

// A page's entries: within bounds, and 0 from P on.
fn entry_fits(anchor: &[u64], page: u64, pages: u64) -> bool {
    let slots = slots_of(anchor, page);
    let width = width_of(anchor, page);
    if page >= pages {
        return slots == 0 && width == 0;
    }
    (1..=128).contains(&slots) && (1..=32).contains(&width) && times(slots, width) <= 128
}

// Whether the slices of this image have other lengths than the anchor's sizes ask for.
fn lengths_differ(anchor: &[u64]) -> bool {
    let total = (0..64)
        .map(|page| times(slots_of(anchor, page), width_of(anchor, page)))
        .fold(0, u64::saturating_add);
    total != 2 || get(anchor, 1) != 1 || get(anchor, 2) != 128
}

// The slots in a page, as the anchor has them.
fn slots_of(anchor: &[u64], page: u64) -> u64 {
    get(anchor, page.saturating_add(4))
}

// The words in each slot of a page.
fn width_of(anchor: &[u64], page: u64) -> u64 {
    get(anchor, page.saturating_add(68))
}
