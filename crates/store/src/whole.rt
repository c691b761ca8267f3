// A call that works on the whole state by value: the state comes from what is carried and from the head, and goes back into both.
ghost use Rattle.std.specs.Prelude.{◌≡◌, true, ◌++◌, ◌≤◌, length, drop};
ghost use Rattle.model.specs.View.{head_words, core_of, carried_of, head_after};
ghost use Rattle.head.specs.Narrow.{narrowed};
ghost use Rattle.head.specs.Saves.{saves};
ghost use Rattle.store.specs.Handed.{handed_of, Arrays};

use crate::{Called, State, carried_of, hand_back};
use head::load::load;
use model::{Core, Reply};

pub fn loaded(state: State, work: &[u64]) -> Core
    ensures value { result ≡ narrowed (core_of state.carried work.now) }
    ensures arrays { Arrays state.carried }
{
    let carried = carried_of(state);
    load(carried, work)
}

// Only a finished call saves a head, and it was lent one.
pub fn kept(reply: Reply, work: &mut [u64]) -> Called
    requires { saves reply.answer reply.core.stage ≡ true → head_words ≤ length work.old }
    ensures result_value { handed_of result ≡ record { answer = reply.answer; carried = carried_of reply.core } }
    ensures work_value { work.new ≡ head_after reply.answer reply.core work.old ++ drop head_words work.old }
{
    let handed = head::hand::hand_back(reply, work);
    hand_back(handed)
}
