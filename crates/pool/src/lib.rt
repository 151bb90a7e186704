// The pool of expressions: nodes, and the two tables that hold them.
#![tactic(auto)]

mod node;
mod parts;
mod rows;
mod table;

pub use node::{EXPONENT_MIN, HALF, Node, VARIABLE_MAX};
pub use parts::{CountedParts, Parts};
pub use rows::{ROWS, TABLE, keeps_at};
pub use table::{LIMIT, Pool, Tables};
