// A command run on the store, and what its line shows.
#![tactic(auto)]

mod checkpoints;
pub mod outcome;
mod restarts;
pub mod running;
mod transactions;
