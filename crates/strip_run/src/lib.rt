// The machine of the key strips: a strip of any bytes is tested, and one that passes runs.
#![tactic(auto)]

mod keys;
mod operands;
mod running;
mod testing;

pub use keys::{Key, key_at};
pub use running::run;
pub use testing::is_strip;
