// The insides of the table's arms, each for what two nodes were found to be.
ghost use Rattle.std.specs.Prelude.{◌≡◌, Some};
ghost use Rattle.pool.specs.Pool.{node_at};
ghost use Rattle.constructors.specs.Terms.{inside};
ghost use Rattle.mul_rules.specs.Rules.{arm_of, two_lits, one_lit, one_exp, two_exps, lits_ahead, lit_ahead, two_pows};

use crate::rule::MulRule;
use pool::{Node, Pool};

// Two literals.
#[tactic(auto, using(crate::proofs::Insides::left_zero, crate::proofs::Insides::right_zero, crate::proofs::Insides::left_one, crate::proofs::Insides::right_one, crate::proofs::Insides::both_others))]
pub fn two_lits(a: i64, b: i64, lhs: u32, rhs: u32) -> MulRule
    ensures { arm_of (Some result) ≡ inside (two_lits a b lhs rhs) }
{
    if literal::is_zero(a) {
        return MulRule::Zero;
    }
    if literal::is_zero(b) {
        return MulRule::Zero;
    }
    if literal::is_one(a) {
        return MulRule::Same(rhs);
    }
    if literal::is_one(b) {
        return MulRule::Same(lhs);
    }
    MulRule::Product(a, b)
}

// A literal and another node, on either side.
#[tactic(auto, using(views::proofs::Missed::mul_missed, crate::proofs::Insides::times_zero, crate::proofs::Insides::times_one, crate::proofs::Insides::no_product, crate::proofs::Insides::no_factor, crate::proofs::Insides::scaled))]
pub fn one_lit(pool: &Pool, a: i64, other: u32) -> Option<MulRule>
    ensures { arm_of result ≡ inside (one_lit (node_at pool.now) a other) }
{
    if literal::is_zero(a) {
        return Some(MulRule::Zero);
    }
    if literal::is_one(a) {
        return Some(MulRule::Same(other));
    }
    match pool.node(other) {
        Node::Mul(b1, b2) => {
            let b = views::literal_at(pool, b1)?;
            Some(MulRule::Scaled(a, b, b2))
        }
        _ => None,
    }
}

// A product of a1 and a2, which may have an Exp, and exp(b).
#[tactic(auto, using(crate::proofs::Insides::second_exp, crate::proofs::Insides::first_exp, crate::proofs::Insides::no_exp))]
pub fn one_exp(pool: &Pool, a1: u32, a2: u32, b: u32) -> Option<MulRule>
    ensures { arm_of result ≡ inside (one_exp (node_at pool.now) a1 a2 b) }
{
    views::exp_at(pool, a2)
        .map(|x| MulRule::OverExp(a1, x, b))
        .or_else(|| views::exp_at(pool, a1).map(|x| MulRule::OverExp(a2, x, b)))
}

// A product of a1 and a2, and one of b1 and b2: each may have an Exp.
#[tactic(auto, using(crate::proofs::Insides::exp_1_1, crate::proofs::Insides::exp_1_2, crate::proofs::Insides::exp_2_1, crate::proofs::Insides::exp_2_2, crate::proofs::Insides::no_left_exp, crate::proofs::Insides::no_right_exp))]
pub fn two_exps(pool: &Pool, a1: u32, a2: u32, b1: u32, b2: u32) -> Option<MulRule>
    ensures { arm_of result ≡ inside (two_exps (node_at pool.now) a1 a2 b1 b2) }
{
    if let Some(x) = views::exp_at(pool, a1) {
        if let Some(y) = views::exp_at(pool, b1) {
            return Some(MulRule::OverExps(a2, b2, x, y));
        }
        if let Some(y) = views::exp_at(pool, b2) {
            return Some(MulRule::OverExps(a2, b1, x, y));
        }
        return None;
    }
    if let Some(x) = views::exp_at(pool, a2) {
        if let Some(y) = views::exp_at(pool, b1) {
            return Some(MulRule::OverExps(a1, b2, x, y));
        }
        if let Some(y) = views::exp_at(pool, b2) {
            return Some(MulRule::OverExps(a1, b1, x, y));
        }
        return None;
    }
    None
}

// A product of a1 and a2, and one of b1 and b2: both may start with a literal.
#[tactic(auto, using(crate::proofs::Insides::left_not, crate::proofs::Insides::right_not, crate::proofs::Insides::both_ahead))]
pub fn lits_ahead(pool: &Pool, a1: u32, a2: u32, b1: u32, b2: u32) -> Option<MulRule>
    ensures { arm_of result ≡ inside (lits_ahead (node_at pool.now) a1 a2 b1 b2) }
{
    let x = views::literal_at(pool, a1)?;
    let y = views::literal_at(pool, b1)?;
    Some(MulRule::Scales(x, y, a2, b2))
}

// A product of a1 and a2, and another node: the product may start with a literal.
#[tactic(auto, using(crate::proofs::Insides::none_ahead, crate::proofs::Insides::one_ahead))]
pub fn lit_ahead(pool: &Pool, a1: u32, a2: u32, other: u32) -> Option<MulRule>
    ensures { arm_of result ≡ inside (lit_ahead (node_at pool.now) a1 a2 other) }
{
    let _ = views::literal_at(pool, a1)?;
    Some(MulRule::Under(a1, a2, other))
}

// A product of a1 and a2, and the power n of b.
#[tactic(auto, using(views::proofs::Missed::pow_missed, crate::proofs::Insides::same_base, crate::proofs::Insides::no_base, crate::proofs::Insides::both_pows, crate::proofs::Insides::other_base))]
pub fn two_pows(pool: &Pool, a1: u32, a2: u32, b: u32, n: u32) -> Option<MulRule>
    ensures { arm_of result ≡ inside (two_pows (node_at pool.now) a1 a2 b n) }
{
    if a2 == b {
        return Some(MulRule::Power(a1, a2, n, 1));
    }
    match pool.node(a2) {
        Node::Pow(a21, exp1) => {
            if a21 == b {
                return Some(MulRule::Power(a1, a21, exp1, n));
            }
            None
        }
        _ => None,
    }
}
