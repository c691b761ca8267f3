// Where to read a transaction's updates from: a position for every 128 of them.

// The log was read from `from` on; `count` updates were found, and `at` has the positions of the first, the 129th and so on.
// An array with its count beside it: the store has no heap.
#[derive(Clone, Copy)]
pub struct Notes {
    pub from: u64,
    pub count: u64,
    pub at: [u64; 128],
}
