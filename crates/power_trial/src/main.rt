// Pseudo-random lists of calls on several sizes, with power lost at every store and after every call, compared with a plain table:
// each answer (number, value, stores made, budget left), each read, and after each restart the pages, word for word. Some calls are
// lent a slice that is a word short; of these it is also compared that they leave the slices (of the logs, the first 8,192 words).
// Standard input may begin with a number: how many lists are tried on each size (1 where there is none). To run it longer:
//     echo 100 | crates/power_trial/out/power_trial
#![tactic(auto)]

mod turns;
mod watching;

use crate::turns::{Trial, turn};
use script::progress::new_progress;
use script::sizes::{how_many, shape_at};
use trial_table::text::read_number;
use trial_table::words::zeros;

// All turns of all sizes.
fn run(
    t: Trial,
    anchor: &mut [u64],
    pages: &mut [u64],
    backups: &mut [u64],
    logs: &mut [u64],
    work: &mut [u64],
    book: &mut [u64],
) {
    let mut now = t;
    for _ in 0..u64::MAX {
        now = turn(now, anchor, pages, backups, logs, work, book);
        if now.size >= how_many() {
            return;
        }
    }
}

fn main() {
    let mut anchor = [0u64; 148];
    let mut pages = [0u64; 2048];
    let mut backups = [0u64; 4096];
    let mut logs = zeros::<524296>();
    let mut work = [0u64; 2905];
    let mut book = [0u64; 17816];
    let lists = read_number(1);
    let first = Trial {
        state: store::new_state(),
        progress: new_progress(shape_at(0), lists),
        size: 0,
        lists,
    };
    run(
        first,
        &mut anchor,
        &mut pages,
        &mut backups,
        &mut logs,
        &mut work,
        &mut book,
    );
}
