// Log room, the idlest disk, and the tests of a state handed in.
#![tactic(auto)]

mod counted;
pub mod place;
pub mod room;
pub mod sound;
