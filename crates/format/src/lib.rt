// Format: the sizes go to the anchor, every log is empty, backup 1 and the pages are zero.
#![tactic(auto)]

mod anchor;
mod devices;
pub mod format;
mod memory;
mod tails;
