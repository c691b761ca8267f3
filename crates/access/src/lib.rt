// The calls on a slot: update and read.
#![tactic(auto)]

mod change;
mod plan;
pub mod read;
mod slots;
pub mod update;
