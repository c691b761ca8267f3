// Stores on a device under a budget: as many words of a run as the budget covers.
//
// In which order a call stores, and how often, is read off this file; the contracts tell what stands at the end, for each budget.
// 1. `device[at] = value;` is the only line of the store that assigns a word of a device (anchor, backups, logs): the other crates only hand their
//    devices on, to each other and to the functions here. The budget is asked just before that line, and lowered by one just after it.
//    (`words::copy_words`, `fill_words` and `xor_in`, which assign words of a slice too, are lent page memory, work memory and local arrays only.)
// 2. No other line lowers a budget, and no other test that a store depends on looks at one: the calls read it before their stores and after
//    them, to count. So a run with budget k does what a run with a larger one does, up to its k-th store and to the next that it comes to; from
//    there on it stores nothing.
// 3. By the contracts the run with budget k leaves on the devices what the first k stores of 01's list leave, for every k. So by 2 that is what
//    the longer run has on them after its k-th store: its stores are those of the list, in its order, each once. (Of a store that leaves the
//    word as it was, the contracts do not tell which word it is; what stands on the devices is the same.)
// This is about the source. What the compiler may make of it: docs/PROMISES.md, section 3.
#![tactic(auto)]

ghost use Rattle.std.specs.Prelude.{◌≡◌, [], ◌∷◌, ◌+◌, ◌%◌, ◌≤◌, ◌<◌, length, replicate};
ghost use Rattle.model.specs.Word.{part};
ghost use Rattle.device.specs.Ran.{Stored, StoredRing};

// Stores one word; true if it is stored.
pub fn store_word(device: &mut [u64], at: usize, value: u64, budget: &mut u64) -> bool
    requires { at < length device.old }
    ensures { Stored budget.old budget.new at (value ∷ []) device.old device.new result }
{
    if *budget == 0 {
        return false;
    }
    device[at] = value;
    *budget -= 1;
    true
}

// Stores the n words of source that start at `from` on a device from index `at` on; true if all are stored.
pub fn store_copy(
    device: &mut [u64],
    at: usize,
    source: &[u64],
    from: usize,
    n: usize,
    budget: &mut u64,
) -> bool
    requires n_in_bounds { at + n ≤ length device.old }
    requires n_in_bounds_2 { from + n ≤ length source.now }
    ensures { Stored budget.old budget.new at (part from n source.now) device.old device.new result }
{
    for i in 0..n {
        if !store_word(device, at + i, source[from + i], budget) {
            return false;
        }
    }
    true
}

// Stores a value n times on a device from index `at` on; true if all are stored.
pub fn store_fill(device: &mut [u64], at: usize, n: usize, value: u64, budget: &mut u64) -> bool
    requires { at + n ≤ length device.old }
    ensures { Stored budget.old budget.new at (replicate n value) device.old device.new result }
{
    for i in 0..n {
        if !store_word(device, at + i, value, budget) {
            return false;
        }
    }
    true
}

// Stores the n words of source that start at `from` in the ring whose word 0 is at index `first`, from position `tail` on: in one run, or
// in two around the ring's end; true if all are stored.
pub fn store_ring(
    device: &mut [u64],
    first: usize,
    ring: usize,
    tail: usize,
    source: &[u64],
    from: usize,
    n: usize,
    budget: &mut u64,
) -> bool
    requires ring_nonzero { (0 < ring) × (n ≤ ring) }
    requires ring_in_bounds { first + ring ≤ length device.old }
    requires n_in_bounds { from + n ≤ length source.now }
    ensures { StoredRing first ring budget.old budget.new tail (part from n source.now) device.old device.new result }
{
    let at = tail % ring;
    let run = ring - at;
    if n <= run {
        return store_copy(device, first + at, source, from, n, budget);
    }
    if !store_copy(device, first + at, source, from, run, budget) {
        return false;
    }
    store_copy(device, first, source, from + run, n - run, budget)
}
