// What is done to expansions entry by entry: sums, differences, negatives, and products and quotients with a constant.
#![tactic(auto)]

mod loops;
mod nodes;
mod sums;

pub use loops::{each_in, fill_in, fold_in, pairs_in};
pub use nodes::{from_in, sub_nodes};
pub use sums::{add_in, coeff_in, max_in, max_of, neg_in, sub_in, var_in};
pub use taylor::TERMS;
