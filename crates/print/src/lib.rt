// Printing: how long the text is, and the text itself.
#![tactic(auto)]

mod output;
mod walk;
mod whole;

pub use output::{write_exponent, write_literal, write_variable};
pub use whole::{print_into, text_length};
