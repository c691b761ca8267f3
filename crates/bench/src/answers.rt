// What a caller reads off an answer.
use model::Answer;

// The value of a finished call, else 0.
pub fn value_of(answer: Answer) -> u64 {
    match answer {
        Answer::Finished { value, .. } => value,
        _ => 0,
    }
}

// Refused, or cut.
pub fn is_refused(answer: Answer) -> bool {
    !matches!(answer, Answer::Finished { .. })
}
