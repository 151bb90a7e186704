// What the programs of the key strips print: the keys of a strip, and the answer of a run.
#![tactic(auto)]

mod answer;
mod keys;

pub use answer::put_answer;
pub use keys::{KeyLine, LINE_ROOM, line_at};
