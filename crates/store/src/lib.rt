// The store's calls. A state is made by these and by nothing else: its field is private.
// The five slices are lent one by one, and no struct has them: which of them a call may write differs from call to call, and is told by its `&mut`.
#![tactic(auto)]

pub mod checkpoints;
pub mod formats;
pub mod listings;
pub mod restarts;
pub mod transactions;
mod whole;

ghost use Rattle.std.specs.Prelude.{◌≡◌, true, List, ℕ};
ghost use Rattle.model.specs.World.{World};
ghost use Rattle.model.specs.State.{sound};
ghost use Rattle.model.specs.Call.{new_state};
ghost use Rattle.model.specs.View.{core_of, Serves};
ghost use Rattle.store.specs.Handed.{Arrays};

use frame::handed::new_carried;
use model::{Answer, Carried, Handed};

// What is handed from one call to the next, 304 bytes; the lent work memory goes with it, and has the rest of the state in its head.
#[derive(Clone, Copy)]
pub struct State {
    carried: Carried,
}

// What a call hands back: its answer, and the state for the next call.
#[derive(Clone, Copy)]
pub struct Called {
    pub answer: Answer,
    pub state: State,
}

// A shut store: what one starts with, and what lost power leaves. Whatever is lent to it, the state is a new one.
pub fn new_state() -> State
    ensures serves { (h : Carried) (w : World) → Serves new_state h w (record { answer = Answer.Finished 0 0; carried = result.carried }) 0 w }
    ensures by_index { (work : List ℕ) → sound (core_of result.carried work) ≡ true }
{
    let carried = new_carried();
    State { carried }
}

// What the state carries. That its arrays are as long as their types say is told here: the calls' proofs use it.
fn carried_of(state: State) -> Carried
    ensures value { result ≡ state.carried }
    ensures arrays { Arrays state.carried }
{
    let carried = state.carried;
    carried
}

// What a call hands back, as the caller gets it.
fn hand_back(handed: Handed) -> Called
    ensures { (result.answer ≡ handed.answer) × (result.state.carried ≡ handed.carried) }
{
    let answer = handed.answer;
    let carried = handed.carried;
    let state = State { carried };
    Called { answer, state }
}
