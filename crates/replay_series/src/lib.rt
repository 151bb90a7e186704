// The calls of the list on expansions: each reads its arguments, asks the engine, and compares the answer with the one listed.
#![tactic(auto)]

mod expansions;
mod given;
mod operations;
mod reading;

pub use expansions::{expansion_is_right, list_is_right};
pub use reading::{indexed, length};
