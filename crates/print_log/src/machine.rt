// A store with the five slices that its calls are lent, and the calls of it: two pages, page 0 of four one-word slots and page 1 of two
// slots of three words (so T = 10), and D = 2 disks with rings of W = 128 words.
use model::Answer;
use store::formats::format;
use store::listings::list_line;
use store::restarts::{restart_begin, restart_end, restart_remaining, restart_run};
use store::transactions::{abort, begin, commit, update};
use store::{Called, State, new_state};

// The restart's functions stand in first_steps too: each program is complete, to be copied from.
#[derive(Drop)]
pub struct Machine {
    state: State,
    // 148 words, always
    anchor: [u64; 148],
    // T
    pages: [u64; 10],
    // 2 × T
    backups: [u64; 20],
    // D × (W + 1)
    logs: [u64; 258],
    // T + 64 × D + 345
    work: [u64; 483],
}

// The value of a call that finished, or what the call answered instead: so `?` ends what it stands in at the first call that does not finish.
fn value(answer: Answer) -> Result<u64, Answer> {
    match answer {
        Answer::Finished { value, .. } => Ok(value),
        _ => Err(answer),
    }
}

impl Machine {
    // New devices, and a new state.
    pub fn new() -> Machine {
        Machine {
            state: new_state(),
            anchor: [0; 148],
            pages: [0; 10],
            backups: [0; 20],
            logs: [0; 258],
            work: [0; 483],
        }
    }

    // Power is lost: the state is gone, and the devices are as the last store left them.
    pub fn lose_power(&mut self) {
        self.state = new_state();
    }

    // Keeps the state that a call handed back, whatever it answered: the next call goes on with it.
    fn keep(&mut self, called: Called) -> Result<u64, Answer> {
        self.state = called.state;
        value(called.answer)
    }

    // Formats. Both arrays have an entry for each page, and 0 from P on. After a format the transactions' numbers count from 1.
    pub fn format(&mut self) -> Result<u64, Answer> {
        let mut slots = [0; 64];
        let mut widths = [0; 64];
        slots[0] = 4;
        widths[0] = 1;
        slots[1] = 2;
        widths[1] = 3;
        let mut budget = u64::MAX;
        let called = format(
            self.state,
            2,
            2,
            128,
            slots,
            widths,
            &mut self.anchor,
            &mut self.pages,
            &mut self.backups,
            &mut self.logs,
            &mut self.work,
            &mut budget,
        );
        self.keep(called)
    }

    // Begins a transaction of class 0, and answers its number.
    pub fn begin(&mut self) -> Result<u64, Answer> {
        let called = begin(
            self.state,
            0,
            &self.anchor,
            &self.pages,
            &self.backups,
            &self.logs,
            &mut self.work,
        );
        self.keep(called)
    }

    // Sets a slot; the value has as many words as the slot.
    pub fn update(
        &mut self,
        number: u64,
        page: u64,
        slot: u64,
        words: &[u64],
    ) -> Result<u64, Answer> {
        let mut budget = u64::MAX;
        let called = update(
            self.state,
            number,
            page,
            slot,
            words,
            &self.anchor,
            &mut self.pages,
            &self.backups,
            &mut self.logs,
            &mut self.work,
            &mut budget,
        );
        self.keep(called)
    }

    pub fn commit(&mut self, number: u64) -> Result<u64, Answer> {
        let mut budget = u64::MAX;
        let called = commit(
            self.state,
            number,
            &self.anchor,
            &self.pages,
            &self.backups,
            &mut self.logs,
            &mut self.work,
            &mut budget,
        );
        self.keep(called)
    }

    pub fn abort(&mut self, number: u64) -> Result<u64, Answer> {
        let mut budget = u64::MAX;
        let called = abort(
            self.state,
            number,
            &self.anchor,
            &mut self.pages,
            &self.backups,
            &mut self.logs,
            &mut self.work,
            &mut budget,
        );
        self.keep(called)
    }

    // Takes a source to its end by one run. One with nothing left is passed over.
    fn replay(&mut self, source: u64) -> Result<(), Answer> {
        let left = restart_remaining(self.state, source, &self.work);
        if left == 0 {
            return Ok(());
        }
        let called = restart_run(
            self.state,
            source,
            left,
            &self.anchor,
            &mut self.pages,
            &self.backups,
            &self.logs,
            &mut self.work,
        );
        self.keep(called)?;
        Ok(())
    }

    fn restart_begin(&mut self) -> Result<u64, Answer> {
        let called = restart_begin(
            self.state,
            &self.anchor,
            &mut self.pages,
            &self.backups,
            &self.logs,
            &mut self.work,
        );
        self.keep(called)
    }

    fn restart_end(&mut self) -> Result<u64, Answer> {
        let mut budget = u64::MAX;
        let called = restart_end(
            self.state,
            &mut self.anchor,
            &self.pages,
            &mut self.backups,
            &self.logs,
            &mut self.work,
            &mut budget,
        );
        self.keep(called)
    }

    // A restart, as in first_steps: its begin, the logs of disks 0 and 1, the backup (source D = 2), its end.
    pub fn restart(&mut self) -> Result<u64, Answer> {
        self.restart_begin()?;
        for source in 0..=2 {
            self.replay(source)?;
        }
        self.restart_end()
    }

    // A line of the retained log, by its number.
    pub fn line(&self, number: u64) -> Result<[u8; 73], Answer> {
        let mut line = [0; 73];
        value(list_line(self.state, number, &self.anchor, &self.logs, &mut line))?;
        Ok(line)
    }
}
