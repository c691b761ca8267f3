// 01's kinds of records, and the words of each.
ghost use Rattle.std.specs.Prelude.{◌≡◌, ◌<◌, ◌^◌};
ghost use Rattle.model.specs.Record.{record_size, words_of};

pub const UPDATE: u64 = 0;

pub const COMPENSATION: u64 = 1;

pub const COMMIT: u64 = 2;

pub const ABORT: u64 = 3;

// 01's record table; width is that of the difference. A number above 3 is no kind. The sum stands before the match, so that it is compiled
// to one test for the two kinds that have it.
pub fn record_size(kind: u64, width: u64) -> Option<u64>
    requires { width < 2 ^ 48 }
    ensures { result ≡ record_size kind width }
{
    let change = 3 + width;
    match kind {
        UPDATE => Some(change),
        COMPENSATION => Some(change),
        COMMIT => Some(2),
        ABORT => Some(2),
        _ => None,
    }
}

// The words of a record whose kind is known to be one of the four; 0 for another.
pub fn words_of(kind: u64, width: u64) -> u64
    requires { width < 2 ^ 48 }
    ensures { result ≡ words_of kind width }
{
    record_size(kind, width).unwrap_or(0)
}
