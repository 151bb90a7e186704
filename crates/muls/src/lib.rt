// The constructors `mul`, `exp`, `pow` and `neg`: which rule holds, and what it builds.
#![tactic(auto)]

mod made;
mod neg;
mod power;
mod rule;

pub use made::{exp_in, mul_in};
pub use neg::neg_in;
pub use power::pow_in;
