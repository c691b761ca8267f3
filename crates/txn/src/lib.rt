// The calls that open a transaction and make its results last, begin and commit; and the one that says which disks serve which class.
#![tactic(auto)]

pub mod begin;
pub mod commit;
pub mod setting;
