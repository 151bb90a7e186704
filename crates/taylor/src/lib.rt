// Expansions: a constant, or a list of coefficients; the definitions of `TaylorExpansion` and of the expansion of expressions are in specs/.
#![tactic(auto)]

mod coefficients;
mod expansion;

pub use coefficients::{Coefficients, TERMS};
pub use expansion::Expansion;
