// Key strips: what the strip of a root needs, and the strip itself.
#![tactic(auto)]

mod need;
mod writer;

pub use need::{Need, need_of};
pub use writer::strip_into;
