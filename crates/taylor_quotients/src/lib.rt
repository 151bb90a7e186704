// Quotients of expansions, and their exponentials and logarithms.
#![tactic(auto)]

mod coefficient;
mod exp;
mod log;
mod quotient;

pub use exp::exp_in;
pub use log::log_in;
pub use quotient::quotient_in;
