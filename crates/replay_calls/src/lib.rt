// The calls of the list on nodes, values, texts, files and strips: each reads its arguments, asks the engine, and compares the answer with the one listed.
#![tactic(auto)]

mod builds;
mod checks;
mod got;
mod pools;
mod strips;
mod texts;
mod values;
mod walked;

pub use builds::build;
pub use checks::check_is_right;
pub use got::{Got, expected, of_answer};
pub use pools::{grow, same_pools, set};
pub use strips::run;
pub use texts::text_is_right;
pub use values::value;
pub use walked::walk;
