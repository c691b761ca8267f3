// A store by value: its state, and what is lent to it. The arrays are as long as the largest size that is tried needs.
use calling::lending::lend;
use model::Answer;
use store::State;
use trial_table::calls::{Call, Kind};
use trial_table::shape::Shape;

pub type Anchor = [u64; 148];

pub type Logs = [u64; 1539];

// `newest` is the newest transaction's number.
#[derive(Clone, Copy)]
pub struct Machine {
    pub anchor: Anchor,
    pub pages: [u64; 512],
    pub backups: [u64; 1024],
    pub logs: Logs,
    pub work: [u64; 1100],
    pub state: State,
    pub newest: u64,
}

// Unformatted devices, and a new state.
pub fn blank() -> Machine {
    Machine {
        anchor: [0; 148],
        pages: [0; 512],
        backups: [0; 1024],
        logs: [0; 1539],
        work: [0; 1100],
        state: store::new_state(),
        newest: 0,
    }
}

// A call with the largest allowance; none is a read, which would want a book.
pub fn performed(m: Machine, shape: Shape, call: Call) -> Machine {
    let mut after = m;
    let called = lend(
        m.state,
        shape,
        call,
        &mut after.anchor,
        &mut after.pages,
        &mut after.backups,
        &mut after.logs,
        &mut after.work,
        &mut [0],
        &mut u64::MAX,
    );
    after.state = called.state;
    if let (Kind::Begin, Answer::Finished { value, .. }) = (call.kind, called.answer) {
        after.newest = value;
    }
    after
}
