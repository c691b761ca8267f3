// A store with the five slices that its calls are lent: P = 2 pages, each of four one-word slots (so T = 8), and D = 2 disks with rings of
// W = 128 words.
use model::Answer;
use store::formats::format;
use store::restarts::{restart_begin, restart_end, restart_remaining, restart_run};
use store::transactions::{begin, commit, read, read_answer, update};
use store::{Called, State, new_state};

// The state, and the slices. The restart's functions stand in print_log too: each program is complete, to be copied from.
#[derive(Drop)]
pub struct Machine {
    state: State,
    // 148 words, always
    anchor: [u64; 148],
    // T
    pages: [u64; 8],
    // 2 × T
    backups: [u64; 16],
    // D × (W + 1)
    logs: [u64; 258],
    // T + 64 × D + 345
    work: [u64; 481],
}

// What a call that finished tells.
#[derive(Clone, Copy)]
pub struct Done {
    pub stores: u64,
    pub value: u64,
}

// Why a call did not finish.
#[derive(Clone, Copy)]
pub enum Stop {
    Refused {
        number: u64,
        first: u64,
        second: u64,
    },
    Interrupted {
        stores: u64,
    },
}

// An answer as a result: so `?` ends what it stands in at the first call that does not finish.
fn outcome(answer: Answer) -> Result<Done, Stop> {
    match answer {
        Answer::Finished { stores, value } => Ok(Done { stores, value }),
        Answer::Refused {
            number,
            first,
            second,
        } => Err(Stop::Refused {
            number,
            first,
            second,
        }),
        Answer::Interrupted { stores } => Err(Stop::Interrupted { stores }),
    }
}

impl Machine {
    // New devices, and a new state.
    pub fn new() -> Machine {
        Machine {
            state: new_state(),
            anchor: [0; 148],
            pages: [0; 8],
            backups: [0; 16],
            logs: [0; 258],
            work: [0; 481],
        }
    }

    // Power is lost: the state is gone, and page memory and work memory may hold anything. The devices are as the last store left them.
    pub fn lose_power(&mut self) {
        self.state = new_state();
        self.pages = [7; 8];
        self.work = [7; 481];
    }

    // Keeps the state that a call handed back, whatever it answered: the next call goes on with it.
    fn keep(&mut self, called: Called) -> Result<Done, Stop> {
        self.state = called.state;
        outcome(called.answer)
    }

    // Formats. Both arrays have an entry for each page, and 0 from P on.
    pub fn format(&mut self) -> Result<Done, Stop> {
        let mut slots = [0; 64];
        let mut widths = [0; 64];
        for page in 0..2 {
            slots[page] = 4;
            widths[page] = 1;
        }
        let mut budget = u64::MAX;
        let called = format(
            self.state,
            2,
            2,
            128,
            slots,
            widths,
            &mut self.anchor,
            &mut self.pages,
            &mut self.backups,
            &mut self.logs,
            &mut self.work,
            &mut budget,
        );
        self.keep(called)
    }

    // Begins a transaction of class 0, and answers its number.
    fn begin(&mut self) -> Result<u64, Stop> {
        let called = begin(
            self.state,
            0,
            &self.anchor,
            &self.pages,
            &self.backups,
            &self.logs,
            &mut self.work,
        );
        let begun = self.keep(called)?;
        Ok(begun.value)
    }

    // Sets a slot of page 0.
    fn update(
        &mut self,
        number: u64,
        slot: u64,
        word: u64,
        budget: &mut u64,
    ) -> Result<Done, Stop> {
        let called = update(
            self.state,
            number,
            0,
            slot,
            &[word],
            &self.anchor,
            &mut self.pages,
            &self.backups,
            &mut self.logs,
            &mut self.work,
            budget,
        );
        self.keep(called)
    }

    fn commit(&mut self, number: u64, budget: &mut u64) -> Result<Done, Stop> {
        let called = commit(
            self.state,
            number,
            &self.anchor,
            &self.pages,
            &self.backups,
            &mut self.logs,
            &mut self.work,
            budget,
        );
        self.keep(called)
    }

    // One transaction: begins, sets a slot of page 0, commits; the stores of all three come out of one budget.
    pub fn enter(&mut self, slot: u64, word: u64, budget: &mut u64) -> Result<Done, Stop> {
        let number = self.begin()?;
        self.update(number, slot, word, budget)?;
        self.commit(number, budget)
    }

    // The words of a slot of page 0, as reader 0, who has no transaction; none if the read is refused.
    pub fn read(&self, slot: u64) -> &[u64] {
        read(
            self.state,
            0,
            0,
            slot,
            &self.anchor,
            &self.pages,
            &self.backups,
            &self.logs,
            &self.work,
        )
    }

    // What that read answers: why it is refused, if it is.
    pub fn read_answer(&self, slot: u64) -> Result<Done, Stop> {
        outcome(read_answer(
            self.state,
            0,
            0,
            slot,
            &self.anchor,
            &self.pages,
            &self.backups,
            &self.logs,
            &self.work,
        ))
    }

    fn restart_begin(&mut self) -> Result<Done, Stop> {
        let called = restart_begin(
            self.state,
            &self.anchor,
            &mut self.pages,
            &self.backups,
            &self.logs,
            &mut self.work,
        );
        self.keep(called)
    }

    // Takes a source to its end by one run. Each step takes a word or a page or more, so what remains of the source is steps enough. A
    // source with nothing left is passed over: a run of it would be refused with 15.
    fn replay(&mut self, source: u64) -> Result<(), Stop> {
        let left = restart_remaining(self.state, source, &self.work);
        if left == 0 {
            return Ok(());
        }
        let called = restart_run(
            self.state,
            source,
            left,
            &self.anchor,
            &mut self.pages,
            &self.backups,
            &self.logs,
            &mut self.work,
        );
        self.keep(called)?;
        Ok(())
    }

    fn restart_end(&mut self) -> Result<Done, Stop> {
        let mut budget = u64::MAX;
        let called = restart_end(
            self.state,
            &mut self.anchor,
            &self.pages,
            &mut self.backups,
            &self.logs,
            &mut self.work,
            &mut budget,
        );
        self.keep(called)
    }

    // A restart: its begin, the logs of disks 0 and 1, the backup (source D = 2), its end.
    pub fn restart(&mut self) -> Result<Done, Stop> {
        self.restart_begin()?;
        for source in 0..=2 {
            self.replay(source)?;
        }
        self.restart_end()
    }
}
