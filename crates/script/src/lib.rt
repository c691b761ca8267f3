// What the power trial does next, and whether what came of it is what the plain table expects; without the store.
#![tactic(auto)]

mod choices;
pub mod plan;
pub mod progress;
pub mod sizes;
