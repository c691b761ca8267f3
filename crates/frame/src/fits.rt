// What the calls test of a state, by its numbers. A state that no call made may hold any numbers.
ghost use Rattle.std.specs.Prelude.{◌≡◌};
ghost use Rattle.frame.specs.Fits.{counts_within, place_within};

use layout::bounds::counts_in_bounds;
use table::place::CLOSE_WORDS;
use table::room::LIMIT;

// P, D, W and T are within their bounds.
pub fn counts_fit(pages: u64, disks: u64, ring: u64, total: u64) -> bool
    ensures { result ≡ counts_within pages disks ring total }
{
    if !counts_in_bounds(pages, disks, ring) {
        return false;
    }
    total <= 8192
}

// A transaction's disk is one of the state's, and has room for the words reserved on it, of which `reserved` are its own.
pub fn place_fits(disks: u64, disk: u64, tail: u64, fill: u64, reserved: u64, sum: u64) -> bool
    ensures { result ≡ place_within disks disk tail fill reserved sum }
{
    if disk >= disks {
        return false;
    }
    if fill > 64 {
        return false;
    }
    if reserved < CLOSE_WORDS {
        return false;
    }
    if sum < reserved {
        return false;
    }
    if LIMIT < tail {
        return false;
    }
    if LIMIT < sum {
        return false;
    }
    tail + fill + sum <= LIMIT
}
