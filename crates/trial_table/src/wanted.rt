// What the plain table expects of a call, and whether an answer is that.
use crate::answers::{number_of, second_of, stores_of, value_of};
use crate::logs::Budget;
use model::Answer;

// A refusal: 01's number, and the first value that comes with it.
#[derive(Clone, Copy)]
pub struct Refusal {
    pub number: u64,
    pub value: u64,
}

impl From<u64> for Refusal {
    // A number with no value.
    fn from(number: u64) -> Refusal {
        Refusal { number, value: 0 }
    }
}

// The answer, and the budget that is left.
#[derive(Clone, Copy)]
pub struct Wanted {
    pub answer: Answer,
    left: u64,
}

pub fn refused(refusal: Refusal, budget: u64) -> Wanted {
    Wanted {
        answer: Answer::Refused {
            number: refusal.number,
            first: refusal.value,
            second: 0,
        },
        left: budget,
    }
}

// Taken or cut, by what is left of a budget.
pub fn charged(budget: u64, after: Budget, value: u64) -> Wanted {
    match after {
        Some(left) => Wanted {
            answer: Answer::Finished {
                stores: budget.saturating_sub(left),
                value,
            },
            left,
        },
        None => Wanted {
            answer: Answer::Interrupted { stores: budget },
            left: 0,
        },
    }
}

// Whether an answer, and the budget after the call, are as expected.
pub fn is_wanted(answer: Answer, after: u64, wanted: Wanted) -> bool {
    is_same(answer, wanted.answer) && after == wanted.left
}

// Whether two answers have the same number, values and stores.
fn is_same(a: Answer, b: Answer) -> bool {
    number_of(a) == number_of(b)
        && value_of(a) == value_of(b)
        && second_of(a) == second_of(b)
        && stores_of(a) == stores_of(b)
}
