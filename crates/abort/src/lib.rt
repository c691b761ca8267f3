// The call abort: the updates of a transaction taken back, newest first, and its closing record.
#![tactic(auto)]

pub mod abort;
mod difference;
mod fault;
mod notes;
mod reading;
mod record;
mod scope;
mod undo;
mod window;
