// The retained records of the one disk, read by 01's words with no help of the store.
use trial_table::words::get;

// Where the row of a checkpoint's number stands in the anchor.
pub fn row_at(epoch: u64) -> u64 {
    132 + epoch % 2 * 8
}

// The start of the current row.
pub fn start_of(anchor: &[u64]) -> u64 {
    get(anchor, row_at(get(anchor, 3)))
}

// The word at a position of the ring.
pub fn ring(logs: &[u64], position: u64) -> u64 {
    get(logs, 1 + position % 128)
}

// The words of the record at a position, none where it is malformed.
pub fn record_words(anchor: &[u64], logs: &[u64], at: u64) -> Option<u64> {
    let head = ring(logs, at);
    if ring(logs, at.saturating_add(1)) == 0 || head % 8 > 3 {
        return None;
    }
    if head % 8 > 1 {
        return (head < 8).then_some(2);
    }
    change_words(anchor, head)
}

// The same of an update or a compensation with this first word.
fn change_words(anchor: &[u64], head: u64) -> Option<u64> {
    let page = head / 8 % 64;
    let width = get(anchor, page + 68);
    let fits = page < get(anchor, 0)
        && head / 512 % 128 < get(anchor, page + 4)
        && head / 65536 == width;
    fits.then_some(width.saturating_add(3))
}

// The position of the next record, the same where this one is malformed.
pub fn next_position(anchor: &[u64], logs: &[u64], at: u64) -> u64 {
    at.saturating_add(record_words(anchor, logs, at).unwrap_or(0))
}

// The position of the first malformed record.
pub fn first_malformed(anchor: &[u64], logs: &[u64], start: u64, tail: u64) -> Option<u64> {
    let mut at = start;
    for _ in 0..128 {
        if at >= tail {
            return None;
        }
        let next = next_position(anchor, logs, at);
        if next == at || next > tail {
            return Some(at);
        }
        at = next;
    }
    None
}
