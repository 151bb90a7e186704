// The expansion of a variable, and what is read of an expansion that is given: its order, and the expansion of given coefficients.
#![tactic(auto)]

mod read;
mod variable;

pub use read::{from_coefficients, order};
pub use variable::var;
