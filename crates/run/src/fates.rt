// A memory of fates for one run: sixteen transactions that have been met, here or further on, and are not closed yet, by number, and
// whether they are closed further on. At most sixteen are open at once, so it suffices for every log that the calls write; for others it
// is only slower.
ghost use Rattle.std.specs.Prelude.{◌≡◌, true, false, ℕ, ◌+◌, ◌≤◌, ◌<◌, get_or, set, MatchOption};
ghost use Rattle.model.specs.declared.Fate.{Fate};
ghost use Rattle.model.specs.declared.Fate.TheVariants.{Closed, Unreadable};
ghost use Rattle.run.specs.Run.{fate_of, Remembers, Searched};

use model::Fate;

const ROOM: usize = 16;

// The first `used` places have a transaction. While a search ahead goes on, the last of them are those that it has met. Two arrays in step,
// with a count beside: a search goes over the numbers alone, and the store has no heap.
#[derive(Drop)]
pub struct Fates {
    numbers: [u64; 16],
    closed: [bool; 16],
    used: usize,
    ghost room: { used ≤ 16 },
}

// The fate of a transaction that is closed, or is not.
fn known_fate(closed: bool) -> Fate
    ensures { result ≡ fate_of closed }
{
    if closed { Fate::Closed } else { Fate::Unclosed }
}

impl Fates {
    pub fn new() -> Fates
        ensures { result.used ≡ 0 }
    {
        Fates {
            numbers: [0; 16],
            closed: [false; 16],
            used: 0,
        }
    }

    // How many places are used.
    pub fn used(&self) -> usize
        ensures { result ≡ self.now.used }
    {
        self.used
    }

    // The place of a number.
    fn find(&self, number: u64) -> Option<usize>
        ensures { MatchOption result ((i : ℕ) → i < self.now.used → get_or self.now.numbers i 0 ≡ number → ⊥)
            (λ i. (i < self.now.used) × (get_or self.now.numbers i 0 ≡ number)) }
    {
        self.numbers[..self.used].iter().position(|n| *n == number)
    }

    // The fate that is remembered of a number.
    pub fn known(&self, number: u64) -> Option<Fate>
        ensures { (fate : ℕ → Fate) → Remembers fate self.now.numbers self.now.closed self.now.used
            → MatchOption result ((i : ℕ) → i < self.now.used → get_or self.now.numbers i 0 ≡ number → ⊥) (λ f. f ≡ fate number) }
    {
        let i = self.find(number)?;
        Some(known_fate(self.closed[i]))
    }

    // Puts a number behind the others. Where all sixteen places are used, it is left out.
    pub fn put(&mut self, number: u64, closed: bool)
        ensures grown { self.old.used ≤ self.new.used }
        ensures full { self.old.used ≡ 16 → (self.new.numbers ≡ self.old.numbers) × (self.new.closed ≡ self.old.closed) × (self.new.used ≡ self.old.used) }
        ensures put { self.old.used < 16 → (self.new.numbers ≡ set self.old.numbers self.old.used number)
            × (self.new.closed ≡ set self.old.closed self.old.used closed) × (self.new.used ≡ self.old.used + 1) }
    {
        let i = self.used;
        if i < ROOM {
            self.numbers[i] = number;
            self.closed[i] = closed;
            self.used = i + 1;
        }
    }

    // With a number that a change has, and that a search met: it is put behind the others if it is new.
    pub fn meet(&mut self, sought: u64, number: u64)
        ensures { (self.old.used ≤ self.new.used) × ((fate ahead : ℕ → Fate) (first : ℕ) → first < self.old.used
            → Searched fate ahead sought self.old.numbers self.old.closed first self.old.used
            → Searched fate ahead sought self.new.numbers self.new.closed first self.new.used) }
    {
        if number == sought {
            return;
        }
        match self.find(number) {
            Some(_) => {}
            None => self.put(number, false),
        }
    }

    // A close: its transaction is closed, and is kept even if it had no change, for its number may come again.
    pub fn close(&mut self, number: u64)
        ensures { (self.old.used ≤ self.new.used) × ((fate ahead later : ℕ → Fate) (sought first : ℕ) → first < self.old.used
            → ahead number ≡ Closed → ((n : ℕ) → (n ≡ number → ⊥) → later n ≡ ahead n)
            → Searched fate ahead sought self.old.numbers self.old.closed first self.old.used
            → Searched fate later sought self.new.numbers self.new.closed first self.new.used) }
    {
        match self.find(number) {
            Some(i) => self.closed[i] = true,
            None => self.put(number, true),
        }
    }

    // Whether all from a place on are closed.
    pub fn all_closed(&self, first: usize) -> bool
        requires { first ≤ self.now.used }
        ensures { result ≡ true → (i : ℕ) → first ≤ i → i < self.now.used → get_or self.now.closed i false ≡ true }
    {
        for i in first..self.used {
            if !self.closed[i] {
                return false;
            }
        }
        true
    }

    // At the end of the log: what is known of a place is its fate.
    pub fn fate_at(&self, i: usize) -> Fate
        requires { i < self.now.used }
        ensures { result ≡ fate_of (get_or self.now.closed i false) }
    {
        known_fate(self.closed[i])
    }

    // At a malformed record, where a search that began at a place ends: the sought transaction stays if it was closed before it, and else
    // its fate cannot be read.
    pub fn cut_short(&mut self, first: usize, position: u64) -> Fate
        requires { first < self.old.used }
        ensures { (fate ahead : ℕ → Fate) (sought : ℕ) → Unreadable position ≡ ahead sought
            → Searched fate ahead sought self.old.numbers self.old.closed first self.old.used
            → (result ≡ fate sought) × Remembers fate self.new.numbers self.new.closed self.new.used }
    {
        if self.closed[first] {
            self.used = first + 1;
            return Fate::Closed;
        }
        self.used = first;
        Fate::Unreadable { position }
    }

    // Makes room for a search: where all sixteen places are used, they are forgotten.
    pub fn make_room(&mut self)
        ensures { (self.new.used < 16) × (self.new.used ≤ self.old.used) × (self.new.numbers ≡ self.old.numbers) × (self.new.closed ≡ self.old.closed) }
    {
        if self.used == ROOM {
            self.used = 0;
        }
    }

    // Without a number, whose transaction closes here: the last takes its place.
    pub fn forget(&mut self, number: u64)
        ensures { (fate later : ℕ → Fate) → ((n : ℕ) → (n ≡ number → ⊥) → later n ≡ fate n)
            → Remembers fate self.old.numbers self.old.closed self.old.used → Remembers later self.new.numbers self.new.closed self.new.used }
    {
        if let Some(i) = self.find(number) {
            let last = self.used - 1;
            self.numbers[i] = self.numbers[last];
            self.closed[i] = self.closed[last];
            self.used = last;
        }
    }
}
