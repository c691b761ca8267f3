// Many restart steps of one source in one call.
#![tactic(auto)]

mod ahead;
mod fates;
mod fault;
mod record;
pub mod run;
