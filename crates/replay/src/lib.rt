// The parts of a restart: what its begin reads from the devices, what a step XORs in, what its end stores.
#![tactic(auto)]

pub mod image;
pub mod record;
pub mod ring;
pub mod save;
pub mod take;
