// The log on paper (02, S-1): its lines by columns, and the calls that write them.
#![tactic(auto)]

pub mod call;
mod columns;
mod pages;
