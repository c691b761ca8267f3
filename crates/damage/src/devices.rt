// What is lent to a store: one page of two one-word slots, one disk, W = 128.

#[derive(Clone, Copy, PartialEq, Eq)]
pub struct Devices {
    pub anchor: [u64; 148],
    pub pages: [u64; 2],
    pub backups: [u64; 4],
    pub logs: [u64; 129],
    pub work: [u64; 411],
}

// Unformatted devices.
pub fn blank() -> Devices {
    Devices {
        anchor: [0u64; 148],
        pages: [0u64; 2],
        backups: [0u64; 4],
        logs: [0u64; 129],
        work: [0u64; 411],
    }
}

// Whether all words are the same.
pub fn same(a: Devices, b: Devices) -> bool {
    a == b
}

// Whether they are the same outside the work memory.
pub fn same_but_work(a: Devices, b: Devices) -> bool {
    let work = b.work;
    Devices { work, ..a } == b
}
