// The constructors `log`, `div` and `max`: which rule holds, and what it builds.
#![tactic(auto)]

mod made;
mod rule;

pub use made::{div_in, log_in, max_in};
