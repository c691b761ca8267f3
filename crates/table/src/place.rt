// What a place in the table of open transactions reserves.

// The words that a begin reserves, 01's "2 words each" of what is owed: for a closing record. What is reserved beyond them is for updates.
pub const CLOSE_WORDS: u64 = 2;
