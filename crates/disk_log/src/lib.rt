// A disk's log on slices and numbers, without state: its ring in the logs of all disks, then its buffer.
#![tactic(auto)]

mod front;
pub mod kinds;
pub mod read;
pub mod ring;
pub mod scan;
pub mod updates;
pub mod write;
