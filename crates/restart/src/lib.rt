// Restart: begin, step, end, and what remains of a source.
#![tactic(auto)]

pub mod begin;
pub mod finish;
pub mod remain;
pub mod step;
