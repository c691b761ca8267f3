// What a call that takes a state by value hands back, to a caller whose state is in two parts.
ghost use Rattle.std.specs.Prelude.{◌≡◌, true, ◌++◌, ◌≤◌, length, drop};
ghost use Rattle.model.specs.View.{head_words, carried_of, head_after};
ghost use Rattle.head.specs.Saves.{saves};

use crate::own::is_shut;
use crate::save::{carried_of, save};
use model::{Answer, Handed, Reply, Stage};

fn is_saved(answer: Answer, stage: Stage) -> bool
    ensures { result ≡ saves answer stage }
{
    matches!(answer, Answer::Finished { .. }) && !is_shut(stage)
}

pub fn hand_back(reply: Reply, work: &mut [u64]) -> Handed
    requires { saves reply.answer reply.core.stage ≡ true → head_words ≤ length work.old }
    ensures { (result ≡ record { answer = reply.answer; carried = carried_of reply.core })
        × (work.new ≡ head_after reply.answer reply.core work.old ++ drop head_words work.old) }
{
    let answer = reply.answer;
    let core = reply.core;
    let stage = core.stage;
    let carried = carried_of(core);
    if is_saved(answer, stage) {
        save(core, work);
        return Handed { answer, carried };
    }
    Handed { answer, carried }
}
