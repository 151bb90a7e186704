// The operations on two expansions as calls from outside.
#![tactic(auto)]

mod binary;

pub use binary::{add, div, max, mul, sub, subst};
