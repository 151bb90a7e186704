// The whole sheet of a file and a line, known before a byte of it is printed.
#![tactic(auto)]

mod answer;
mod prepare;
mod rooms;

pub use prepare::prepared;
pub use rooms::{LINE_ROOM, prepared_from};
