// Where pages, slots and memories lie, computed from the sizes; and the sizes: their bounds, and how an anchor gives them.
#![tactic(auto)]

pub mod anchor;
pub mod backup;
pub mod bases;
pub mod bounds;
pub mod disks;
pub mod memory;
pub mod places;
