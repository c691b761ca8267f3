// First steps with the store: format it, commit a result, lose power inside the next commit, restart, and see what stands.
#![tactic(auto)]

mod machine;
mod telling;

use machine::Machine;
use telling::{show_slot, tell};

// Two results are entered. The second has a budget of 3 stores, and its commit wants 7: there the power fails.
fn before_the_loss(machine: &mut Machine) {
    let formatted = machine.format();
    tell("format", formatted);
    if formatted.is_err() {
        return;
    }
    let entered = machine.enter(0, 3, &mut u64::MAX);
    tell("slot 0 := 3", entered);
    if entered.is_err() {
        return;
    }
    let mut budget = 3;
    let cut = machine.enter(1, 5, &mut budget);
    tell("slot 1 := 5", cut);
}

// The store is restarted; both slots are shown.
fn after_the_loss(machine: &mut Machine) {
    let restarted = machine.restart();
    tell("restart", restarted);
    if restarted.is_err() {
        return;
    }
    show_slot(machine, 0);
    show_slot(machine, 1);
}

fn main() {
    let mut machine = Machine::new();
    before_the_loss(&mut machine);
    machine.lose_power();
    after_the_loss(&mut machine);
}
