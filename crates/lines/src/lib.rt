// The lines of the program: reading a command piece by piece, writing a line, and the tally.
#![tactic(auto)]

pub mod command;
mod few;
pub mod output;
pub mod partial;
pub mod tally;
