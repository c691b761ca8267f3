// Damaged devices: every word of a small image changed in eight ways, and images filled at random. On each of them
// - a restart's begin must answer as 01's table says, with the values of 6 and 7;
// - where it was refused, every later call must answer 1;
// - where it was taken, the restart's end, after steps and again after runs, must leave the pages, and store the words, that a replay of
//   the damaged words without the store gives, and a few calls after it must answer with a number that they may give;
// - each call is lent every slice a word short first, and must then answer 2 or 5 where no lower number applies;
// - a refused call must leave every word.
// Standard input may begin with a number: how many random images are tried (500 where there is none). To run it longer:
//     echo 60000 | crates/damage_trial/out/damage_trial
#![tactic(auto)]

mod acts;
mod machine;
mod probe;
mod trial;

use crate::acts::{act, change_word, commit_word, copy_page};
use crate::machine::shut;
use crate::probe::Probe;
use crate::trial::try_image;
use damage::devices::{Devices, blank};
use std::fmt::Write;
use trial_table::calls::Kind;
use trial_table::random;
use trial_table::text::{Output, read_number};

// The good image: two commits with a checkpoint between them, then an abort and a third commit.
fn make_image(p: Probe) -> Probe {
    let first = commit_word(act(p, Kind::Format, 0), 1, 0, 2);
    let closed = act(copy_page(first), Kind::CheckpointEnd, 0);
    let second = commit_word(closed, 2, 1, 7);
    let aborted = act(change_word(second, 3, 0, 9), Kind::Abort, 3);
    commit_word(aborted, 4, 0, 12)
}

fn try_images(p: Probe, good: Devices, images: u64) -> Probe {
    let mut seed: u64 = 88172645463325252;
    let mut after = p;
    for which in (0..images).rev() {
        seed = random::next(seed);
        after = try_image(after, good, which, seed);
    }
    after
}

fn main() {
    let first = Probe {
        machine: shut(blank()),
        taken: true,
        images: 0,
        taken_images: 0,
        calls: 0,
        agreed: 0,
    };
    let made = make_image(first);
    let images = read_number(500).saturating_add(2248);
    let p = try_images(made, made.machine.devices, images);
    let _ = writeln!(
        Output,
        "{} damaged images, {} taken by a restart; {} calls, {} agreed",
        p.images, p.taken_images, p.calls, p.agreed
    );
}
