// Which rule of `mul` holds for two nodes: the groups of the Rust's table, tried in its order. Nothing is written.
#![tactic(auto)]

ghost use Rattle.std.specs.Prelude.{◌≡◌};
ghost use Rattle.pool.specs.Pool.{node_at};
ghost use Rattle.constructors.specs.Tables.{mul_table};
ghost use Rattle.mul_rules.specs.Rules.{mul_term};

mod arms;
mod factors;
mod rule;

use factors::Factors;
use pool::Pool;
pub use rule::MulRule;

// The groups in the Rust's order. A chain of `or_else` was tried, and the check does not find its proof by the two lemmas, which each go by one group.
#[tactic(auto, using(crate::proofs::Groups::decides, crate::proofs::Groups::passes))]
pub fn mul_rule(pool: &Pool, lhs: u32, rhs: u32) -> MulRule
    ensures { mul_term result ≡ mul_table (node_at pool.now) lhs rhs }
{
    let factors = Factors::of(pool, lhs, rhs);
    if let Some(rule) = factors.lits() {
        return rule;
    }
    if let Some(rule) = factors.exps() {
        return rule;
    }
    if let Some(rule) = factors.ahead() {
        return rule;
    }
    if let Some(rule) = factors.pows() {
        return rule;
    }
    factors.last()
}
