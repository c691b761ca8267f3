// What a line of input comes to.
ghost use Rattle.std.specs.Prelude.{◌≡◌, Some};
ghost use Rattle.commands.specs.Shown.{value_in, shown_of};
ghost use Rattle.commands.specs.Restarting.{is_finished};

use model::Answer;
use store::{Called, State};

// What the line of a call shows: 01's number, the stores made, and the value shown.
#[derive(Clone, Copy)]
pub struct Outcome {
    pub answer: u64,
    pub stores: u64,
    pub value: u64,
}

// An outcome, none for a line of any other form, and the state for the next line.
#[derive(Clone, Copy)]
pub struct Done {
    pub outcome: Option<Outcome>,
    pub state: State,
}

// An answer as it is shown; the value of a line refused or cut is 0.
pub fn shown(answer: Answer, value: u64) -> Outcome
    ensures { result ≡ shown_of answer value }
{
    match answer {
        Answer::Finished { stores, .. } => Outcome {
            answer: 0,
            stores,
            value,
        },
        Answer::Refused { number, .. } => Outcome {
            answer: number,
            stores: 0,
            value: 0,
        },
        Answer::Interrupted { stores } => Outcome {
            answer: 16,
            stores,
            value: 0,
        },
    }
}

// The value that an answer holds.
pub fn value_of(answer: Answer) -> u64
    ensures { result ≡ value_in answer }
{
    match answer {
        Answer::Finished { value, .. } => value,
        Answer::Refused { .. } | Answer::Interrupted { .. } => 0,
    }
}

// A call's line, with a value.
pub fn done_of(called: Called, value: u64) -> Done
    ensures { (result.outcome ≡ Some (shown_of called.answer value)) × (result.state.carried ≡ called.state.carried) }
{
    Done {
        outcome: Some(shown(called.answer, value)),
        state: called.state,
    }
}

pub fn is_finished(answer: Answer) -> bool
    ensures { result ≡ is_finished answer }
{
    matches!(answer, Answer::Finished { .. })
}
