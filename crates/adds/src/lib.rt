// The constructor `add`: which rule holds, and what it builds.
#![tactic(auto)]

mod made;
mod rule;

pub use made::{add_in, lit_in};
