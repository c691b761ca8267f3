// The head of the lent work memory: single words of it for the calls that work on them, and the whole state of it and of what is carried by
// value for those that take a state.
#![tactic(auto)]

pub mod hand;
pub mod lists;
pub mod load;
pub mod own;
pub mod places;
pub mod save;
pub mod table;
