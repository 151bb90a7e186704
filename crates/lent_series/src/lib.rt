// Expansions as a caller lends and gets them, and the end of a call that gives one.
#![tactic(auto)]

mod call;
mod series;

pub use call::{finish, order_given};
pub use series::{ENDLESS, Series};
