// Which disks serve which class of transactions (02, S-5): the checks of a table that is lent, and the table that is kept.
#![tactic(auto)]

pub mod kept;
pub mod lines;
