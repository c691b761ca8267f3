// A checkpoint: its begin, its steps and its end.
#![tactic(auto)]

pub mod begin;
mod copy;
pub mod end;
mod ends;
mod flush;
mod starts;
pub mod step;
