// The values that a strip is run over, read from a line: decimals, or the bits of doubles.
#![tactic(auto)]

mod decimal;
mod hex;
mod line;

pub use line::{LINE_MAX, fill};
