// A store's answer as numbers.
use model::Answer;

// 0 for a taken call, else 01's number.
pub fn number_of(answer: Answer) -> u64 {
    match answer {
        Answer::Finished { .. } => 0,
        Answer::Refused { number, .. } => number,
        Answer::Interrupted { .. } => 16,
    }
}

// The stores made.
pub fn stores_of(answer: Answer) -> u64 {
    match answer {
        Answer::Finished { stores, .. } => stores,
        Answer::Refused { .. } => 0,
        Answer::Interrupted { stores } => stores,
    }
}

// What a taken call answers, or the first value of a refusal.
pub fn value_of(answer: Answer) -> u64 {
    match answer {
        Answer::Finished { value, .. } => value,
        Answer::Refused { first, .. } => first,
        Answer::Interrupted { .. } => 0,
    }
}

// The second value of a refusal.
pub fn second_of(answer: Answer) -> u64 {
    match answer {
        Answer::Finished { .. } => 0,
        Answer::Refused { second, .. } => second,
        Answer::Interrupted { .. } => 0,
    }
}
