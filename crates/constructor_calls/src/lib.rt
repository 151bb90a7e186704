// The constructor that is called for each kind, at the full depth.
#![tactic(auto)]

mod one;
mod two;

pub use one::{One, one_in};
pub use two::{Two, two_in};
