// A formatted store: every page has the same slots.
use crate::input::Plan;
use store::State;
use trial_table::words::front_mut;

pub fn formatted(
    plan: Plan,
    anchor: &mut [u64],
    pages: &mut [u64],
    backups: &mut [u64],
    logs: &mut [u64],
    work: &mut [u64],
) -> State {
    // An entry for each page; 0 from the number of pages on.
    let mut slots = [0; 64];
    let mut widths = [0; 64];
    front_mut(&mut slots, plan.pages).fill(plan.slots);
    front_mut(&mut widths, plan.pages).fill(plan.width);
    let mut budget = u64::MAX;
    let done = store::formats::format(
        store::new_state(),
        plan.pages,
        plan.disks,
        plan.ring,
        slots,
        widths,
        anchor,
        pages,
        backups,
        logs,
        work,
        &mut budget,
    );
    done.state
}
