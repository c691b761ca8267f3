// What every call begins and ends with: its stage and its first checks; a refusal, a finished call, a cut one. And what several calls
// share beside that: a disk as it is lent, and a checkpoint made current.
#![tactic(auto)]

pub mod checks;
pub mod entry;
pub mod fits;
pub mod handed;
pub mod home;
pub mod lent;
pub mod pages;
pub mod refusal;
pub mod replaying;
pub mod settle;
pub mod sizes;
pub mod stages;
pub mod states;
pub mod switch;
