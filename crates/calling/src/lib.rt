// A call of the store that is described as data, made; for the trial programs.
#![tactic(auto)]

pub mod lending;
mod making;
