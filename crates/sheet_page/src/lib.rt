// A sheet that is known to be whole, and its pieces.
#![tactic(auto)]

mod first;
mod pieces;

pub use first::{Message, Page, lines_of};
pub use pieces::{PIECES, piece};
