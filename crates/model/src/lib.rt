// The types of the store: its state and its answers. What they mean stands in specs/; there are no functions here.
#![tactic(auto)]

// 01's stages.
#[derive(Clone, Copy)]
pub enum Stage {
    Shut,
    Replaying,
    Open,
    Copying,
}

// 01's P, D and W, the slots in each page and the words in each slot of that page.
// Two arrays and no array of pairs: the anchor and the head have each list whole (specs/View.antt), and a loop over one takes many entries at once.
#[derive(Clone, Copy)]
pub struct Sizes {
    pub pages: u64,
    pub disks: u64,
    pub ring: u64,
    pub slots: [u8; 64],
    pub widths: [u8; 64],
}

// What is kept of the sizes, so that no call sums them up: the first word of each page in the page memory, and 01's T.
#[derive(Clone, Copy)]
pub struct Bases {
    pub pages: [u16; 64],
    pub total: u64,
}

// For each disk: where the retained log starts, its tail, and how many words are buffered.
// An array for each number: the fills lie in the head and the others are carried by value (specs/View.antt).
#[derive(Clone, Copy)]
pub struct Logs {
    pub starts: [u64; 8],
    pub tails: [u64; 8],
    pub fills: [u64; 8],
}

// The open transactions, by place: number (0: the place is free), disk, position of the first update record, reserved words; and the
// reserved words by disk.
// An array for each number, as the head has them, one list behind the other (specs/View.antt).
#[derive(Clone, Copy)]
pub struct Table {
    pub numbers: [u64; 16],
    pub disks: [u64; 16],
    pub firsts: [u64; 16],
    pub reserved: [u64; 16],
    pub sums: [u64; 8],
}

// A checkpoint under way: each disk's end at its begin, and how many pages are copied.
#[derive(Clone, Copy)]
pub struct Checkpoint {
    pub ends: [u64; 8],
    pub copied: u64,
}

// A restart under way: each log's next position, and the next page of the backup.
#[derive(Clone, Copy)]
pub struct Replay {
    pub positions: [u64; 8],
    pub page: u64,
}

// Which disks serve which class of transactions, by line: lowest class, highest class, set of disks; zeros where there is no line.
// An array for each of the three: the search for a class reads two of them, and not the sets.
#[derive(Clone, Copy)]
pub struct Classes {
    pub lows: [u8; 16],
    pub highs: [u8; 16],
    pub sets: [u8; 16],
}

// The state by value: `epoch` is 01's checkpoint number c, `next` the number that the next begin answers.
// Buffers, slot owners and copy numbers lie in the lent work memory.
#[derive(Clone, Copy)]
pub struct Core {
    pub stage: Stage,
    pub sizes: Sizes,
    pub bases: Bases,
    pub epoch: u64,
    pub logs: Logs,
    pub table: Table,
    pub next: u64,
    pub checkpoint: Checkpoint,
    pub replay: Replay,
    pub classes: Classes,
}

// What a call answers; specs/Refusal.antt gives 01's number and values for each case.
#[derive(Clone, Copy)]
pub enum Answer {
    Finished {
        stores: u64,
        value: u64,
    },
    Refused {
        number: u64,
        first: u64,
        second: u64,
    },
    Interrupted {
        stores: u64,
    },
}

// What stands at a position of a log.
#[derive(Clone, Copy)]
pub enum Decoded {
    Change {
        kind: u64,
        page: u64,
        slot: u64,
        number: u64,
        copy: u64,
        width: u64,
        next: u64,
    },
    Close {
        kind: u64,
        number: u64,
        next: u64,
    },
    Malformed,
}

// What the search ahead for a transaction's closing record finds.
#[derive(Clone, Copy)]
pub enum Fate {
    Closed,
    Unclosed,
    Unreadable { position: u64 },
}

// A malformed record that a check of log records finds.
#[derive(Clone, Copy)]
pub struct BadRecord {
    pub disk: u64,
    pub position: u64,
}

// What a call hands back beside the lent slices and the budget.
#[derive(Clone, Copy)]
pub struct Reply {
    pub answer: Answer,
    pub core: Core,
}

// A state in two parts: what goes from call to call by value, 304 bytes; the rest of Core lies in the head of the lent work memory
// (specs/View.antt). `total` is 01's T, `copied` how many pages the checkpoint under way has copied, `ends` its ends. Arrays as Logs has them.
#[derive(Clone, Copy)]
pub struct Carried {
    pub stage: Stage,
    pub pages: u64,
    pub disks: u64,
    pub ring: u64,
    pub total: u64,
    pub epoch: u64,
    pub next: u64,
    pub copied: u64,
    pub starts: [u64; 8],
    pub tails: [u64; 8],
    pub ends: [u64; 8],
    pub classes: Classes,
}

// What a call hands back beside the lent slices and the budget, where the state is in two parts.
#[derive(Clone, Copy)]
pub struct Handed {
    pub answer: Answer,
    pub carried: Carried,
}
