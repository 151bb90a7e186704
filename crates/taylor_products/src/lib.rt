// Products of expansions, their powers, and the substitution of one into another.
#![tactic(auto)]

mod power;
mod product;
mod subst;

pub use power::pow_in;
pub use product::times_in;
pub use subst::subst_in;
