// A store by value: what it answered last, its state, and what is lent to it.
use calling::lending::lend;
use damage::devices::Devices;
use model::Answer;
use store::State;
use store::restarts::restart_remaining;
use trial_table::calls::Call;
use trial_table::shape::Shape;

#[derive(Clone, Copy)]
pub struct Machine {
    pub devices: Devices,
    pub answer: Answer,
    pub state: State,
}

// A new state, before any call.
pub fn shut(devices: Devices) -> Machine {
    Machine {
        devices,
        answer: Answer::Interrupted { stores: 0 },
        state: store::new_state(),
    }
}

// One page of two one-word slots, one disk, W = 128.
fn shape() -> Shape {
    Shape {
        pages: 1,
        disks: 1,
        ring: 128,
        width: 1,
        words: 2,
    }
}

// What remains of a source.
pub fn remaining(m: Machine, source: u64) -> u64 {
    restart_remaining(m.state, source, &m.devices.work)
}

// A call on a machine, with the largest allowance; none is a read, which would want a book.
pub fn performed(m: Machine, call: Call) -> Machine {
    let mut devices = m.devices;
    let called = lend(
        m.state,
        shape(),
        call,
        &mut devices.anchor,
        &mut devices.pages,
        &mut devices.backups,
        &mut devices.logs,
        &mut devices.work,
        &mut [0],
        &mut u64::MAX,
    );
    Machine {
        devices,
        answer: called.answer,
        state: called.state,
    }
}
