// Damaged devices, and what a restart must make of them by 01's words. Nothing here calls the store.
#![tactic(auto)]

pub mod changes;
pub mod devices;
pub mod reading;
mod records;
pub mod replay;
