// The five slices of a store with 64 pages, each of 128 one-word slots (so T = 8,192), and one disk with a ring of 65,536 words: a
// transaction may update every slot but one before its log has no more room.

pub type Anchor = [u64; 148];

pub type Pages = [u64; 8192];

pub type Backups = [u64; 16384];

pub type Logs = [u64; 65537];

pub type Work = [u64; 8601];
