// The entry points of the constructors: what is lent is checked, then the constructor works. The other operations have theirs in the crates engine_*.
#![tactic(auto)]

mod leaf;
mod one;
mod two;

pub use leaf::{lit, var};
pub use one::{exp, log, neg, pow};
pub use two::{add, div, max, mul};
