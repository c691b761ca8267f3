// Which disks serve which class, by 02's S-5: a set of disks for each of the 256 classes, in the book. It is 0 where no table is set, and
// then every disk serves the class. A table is read class by class, each time line by line.
use crate::drawing::{high_at, lay_lines, low_at, power, set_at};
use crate::wanted::Refusal;
use crate::words::{get, put, tail_mut, wipe};

// Where a class's set stands in the book.
fn class_at(class: u64) -> u64 {
    8344 + class % 256
}

// Whether a disk serves a class.
pub fn serves(book: &[u64], class: u64, disk: u64) -> bool {
    let set = get(book, class_at(class));
    set == 0 || (set >> (disk % 64)) % 2 == 1
}

// No table is set.
pub fn forget(book: &mut [u64]) {
    wipe(tail_mut(book, class_at(0)), 256);
}

// A table that follows from a seed: its lines, and how many words of them are lent.
#[derive(Drop)]
struct Table {
    lines: [u64; 64],
    words: u64,
}

impl Table {
    fn new(disks: u64, seed: u64) -> Table {
        let mut lines = [0u64; 64];
        let words = lay_lines(seed, disks, &mut lines);
        Table { lines, words }
    }

    fn count(&self) -> u64 {
        self.words / 3
    }

    fn word(&self, at: u64) -> u64 {
        get(&self.lines, at)
    }

    fn covers(&self, line: u64, class: u64) -> bool {
        (self.word(low_at(line))..=self.word(high_at(line))).contains(&class)
    }

    // The set of a class, by the line that covers it.
    fn set_of(&self, class: u64) -> u64 {
        let line = (0..self.count())
            .rev()
            .find(|&line| self.covers(line, class));
        line.map_or(0, |line| self.word(set_at(line)))
    }

    // How many lines cover a class.
    fn times_covered(&self, class: u64) -> usize {
        (0..self.count())
            .filter(|&line| self.covers(line, class))
            .count()
    }

    // The lowest class that no line covers.
    fn not_covered(&self) -> Option<u64> {
        (0..256).find(|&class| self.times_covered(class) == 0)
    }

    // The lowest class that several lines cover.
    fn covered_twice(&self) -> Option<u64> {
        (0..256).find(|&class| self.times_covered(class) > 1)
    }

    // The first line that is wrong by itself.
    fn wrong_line(&self, disks: u64) -> Option<u64> {
        (0..self.count()).find(|&line| self.is_wrong(line, disks))
    }

    fn is_wrong(&self, line: u64, disks: u64) -> bool {
        let high = self.word(high_at(line));
        let set = self.word(set_at(line));
        self.word(low_at(line)) > high || high > 255 || set == 0 || set >= power(disks)
    }
}

// The table that follows from a seed is set.
pub fn keep(disks: u64, seed: u64, book: &mut [u64]) {
    let table = Table::new(disks, seed);
    for class in 0..256 {
        put(book, class_at(class), table.set_of(class));
    }
}

// 5 no line, more than 16, or no whole number of lines; 17 a wrong line; 18 a class that no line covers; 19 one that several do. The
// value is the line, or the class.
pub fn table_refusal(disks: u64, seed: u64) -> Option<Refusal> {
    let table = Table::new(disks, seed);
    let words = table.words;
    if words == 0 || words > 48 || words % 3 > 0 {
        return Some(Refusal::from(5));
    }
    if let Some(line) = table.wrong_line(disks) {
        return Some(Refusal {
            number: 17,
            value: line,
        });
    }
    if let Some(class) = table.not_covered() {
        return Some(Refusal {
            number: 18,
            value: class,
        });
    }
    table.covered_twice().map(|class| Refusal {
        number: 19,
        value: class,
    })
}
