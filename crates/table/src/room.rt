// The room rule: whether a need fits on a disk, and the idlest disk with room.
ghost use Rattle.std.specs.Prelude.{◌≡◌, MatchOption, IfSome, ◌&&◌, ◌||◌, ◌+◌, ◌≤◌, ◌<◌, ltb, eqb, length, get_or};
ghost use Rattle.model.specs.State.{limit};
ghost use Rattle.model.specs.Classes.{in_set};
ghost use Rattle.model.specs.Room.{started_blocks, no_disk, better};
ghost use Rattle.table.specs.Parts.{logs_of, sums_of, core_of, room_for, idlest_in};

use crate::place::CLOSE_WORDS;
use classes::kept::in_set;

// The bound of positions: 2^62.
pub const LIMIT: u64 = 4611686018427387904;

// A need of so many words fits on a disk whose log ends at `end`.
pub fn fits_ring(start: u64, end: u64, reserved: u64, ring: u64, need: u64) -> bool
    requires { (end ≤ limit) × (reserved ≤ limit) × (need ≤ limit) }
    ensures { result ≡ room_for start end reserved ring need }
{
    if LIMIT < end + reserved + need {
        return false;
    }
    let used = end.saturating_sub(start);
    used + reserved + need <= ring
}

// The same of any numbers: what is above LIMIT is refused before it is added.
pub fn has_room(start: u64, tail: u64, fill: u64, reserved: u64, ring: u64, need: u64) -> bool
    requires { need ≤ limit }
    ensures { result ≡ room_for start (tail + fill) reserved ring need }
{
    if LIMIT < tail {
        return false;
    }
    if LIMIT < fill {
        return false;
    }
    if LIMIT < reserved {
        return false;
    }
    let end = tail + fill;
    if LIMIT < end {
        return false;
    }
    fits_ring(start, end, reserved, ring, need)
}

// The blocks of 16 words that so many words start.
fn started_blocks(words: u64) -> u64
    ensures { result ≡ started_blocks words }
{
    words.div_ceil(16)
}

// A disk with fewer started blocks than the best so far, or the first.
// `best` is 8 for none, as in the definition it is proved against: an Option would be turned back into that number in each contract.
fn is_idler(fills: &[u64], disk: usize, best: usize) -> bool
    requires { (disk < 8) × (best ≤ 8) × (length fills.now ≡ 8) }
    ensures { result ≡ (eqb best no_disk || ltb (started_blocks (get_or fills.now disk 0)) (started_blocks (get_or fills.now best 0))) }
{
    if best == 8 {
        return true;
    }
    started_blocks(fills[disk]) < started_blocks(fills[best])
}

// The better of a disk and the best so far. Its room is asked last: most disks are no idler than the best.
fn better_disk(
    fills: &[u64],
    disk: usize,
    best: usize,
    set: u64,
    start: u64,
    tail: u64,
    sum: u64,
    ring: u64,
) -> usize
    requires { (disk < 8) × (best ≤ 8) × (length fills.now ≡ 8) }
    ensures { (result ≤ 8) × (result ≡ better (in_set set disk && room_for start (tail + get_or fills.now disk 0) sum ring 2) (λ d. started_blocks (get_or fills.now d 0)) disk best) }
{
    if !is_idler(fills, disk, best) {
        return best;
    }
    if !in_set(set, disk) {
        return best;
    }
    if has_room(start, tail, fills[disk], sum, ring, CLOSE_WORDS) {
        disk
    } else {
        best
    }
}

// The disk of a new transaction, one of the set that has room for what a begin reserves. `fills` are the words buffered, `sums` those
// reserved on each disk.
pub fn idlest<'a>(
    disks: u64,
    ring: u64,
    starts: &'a [u64; 8],
    tails: &'a [u64; 8],
    fills: &'a [u64],
    sums: &'a [u64],
    set: u64,
) -> Option<usize>
    requires { (disks ≤ 8) × (length fills.now ≡ 8) × (length sums.now ≡ 8) }
    ensures low { IfSome result (λ disk. disk < no_disk) }
    ensures chosen { MatchOption result (idlest_in set (core_of disks ring (logs_of starts.now tails.now fills.now) (sums_of sums.now)) ≡ no_disk)
        (λ disk. disk ≡ idlest_in set (core_of disks ring (logs_of starts.now tails.now fills.now) (sums_of sums.now))) }
{
    let count = disks as usize;
    let mut best: usize = 8;
    for d in 0..count {
        best = better_disk(fills, d, best, set, starts[d], tails[d], sums[d], ring);
    }
    if best < 8 { Some(best) } else { None }
}
