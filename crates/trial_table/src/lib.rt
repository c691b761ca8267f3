// What the trial programs share: words of a slice, pseudo-random numbers, text, and the plain table that a store is compared with.
// Nothing here reads a device, a state or the pages of a store. Each function is total: an index out of range reads 0 and puts nothing.
#![tactic(auto)]

pub mod answers;
pub mod calls;
mod classes;
pub mod costs;
pub mod drawing;
mod logs;
mod ones;
pub mod plain;
pub mod random;
mod refusals;
mod rooms;
pub mod shape;
pub mod text;
pub mod wanted;
pub mod words;
pub mod write_sets;
