// Bytes in lent tables: numbers with the low byte first, and an output that is written from a position on.
#![tactic(auto)]

mod number;
mod output;

pub use number::{number_at, put_bytes};
pub use output::{Place, TEXT_MAX, put, write};
