// Two nodes to be multiplied, and the groups of the Rust's table: each gives a rule, or leaves the next group to be tried.
ghost use Rattle.std.specs.Prelude.{◌≡◌};
ghost use Rattle.pool.specs.Pool.{node_at};
ghost use Rattle.constructors.specs.Terms.{#, Mul, inside, ◌then◌};
ghost use Rattle.constructors.specs.Tables.{mul_lits, mul_exps, mul_left, mul_pows, mul_last};
ghost use Rattle.mul_rules.specs.Rules.{mul_term, arm_of};

use crate::arms;
use crate::rule::MulRule;
use pool::{Node, Pool};

// Two nodes of a pool, by their numbers and as they are there.
#[derive(Clone, Copy)]
pub struct Factors<'a> {
    pool: &'a Pool,
    lhs: u32,
    rhs: u32,
    left: Node,
    right: Node,
    ghost left_is: { left ≡ node_at pool.now lhs },
    ghost right_is: { right ≡ node_at pool.now rhs },
}

impl<'a> Factors<'a> {
    pub fn of(pool: &'a Pool, lhs: u32, rhs: u32) -> Factors<'a>
        ensures pool { result.pool.now ≡ pool.now }
        ensures lhs { result.lhs ≡ lhs }
        ensures rhs { result.rhs ≡ rhs }
    {
        Factors {
            pool,
            lhs,
            rhs,
            left: pool.node(lhs),
            right: pool.node(rhs),
        }
    }

    // Literal simplifications.
    #[tactic(auto, using(views::proofs::Missed::lit_missed, views::proofs::Missed::exp_missed, crate::proofs::Groups::lit_lit, crate::proofs::Groups::lit_other, crate::proofs::Groups::other_lit, crate::proofs::Groups::exp_lit, crate::proofs::Groups::exp_exp, crate::proofs::Groups::exp_none, crate::proofs::Groups::other_none))]
    pub fn lits(self) -> Option<MulRule>
        ensures { arm_of result ≡ inside (mul_lits (node_at self.entry.pool.now) self.entry.lhs self.entry.rhs) }
    {
        match self.left {
            Node::Lit(a) => match self.right {
                Node::Lit(b) => Some(arms::two_lits(a, b, self.lhs, self.rhs)),
                _ => arms::one_lit(self.pool, a, self.rhs),
            },
            Node::Exp(a) => match self.right {
                Node::Lit(b) => arms::one_lit(self.pool, b, self.lhs),
                Node::Exp(b) => Some(MulRule::ExpSum(a, b)),
                _ => None,
            },
            _ => match self.right {
                Node::Lit(b) => arms::one_lit(self.pool, b, self.lhs),
                _ => None,
            },
        }
    }

    // Exp simplifications.
    #[tactic(auto, using(views::proofs::Missed::mul_missed, views::proofs::Missed::exp_missed, crate::proofs::Groups::mul_exp, crate::proofs::Groups::exp_mul, crate::proofs::Groups::mul_mul, crate::proofs::Groups::mul_none, crate::proofs::Groups::exp_no_mul, crate::proofs::Groups::no_mul_no_exp))]
    pub fn exps(self) -> Option<MulRule>
        ensures { arm_of result ≡ inside (mul_exps (node_at self.entry.pool.now) self.entry.lhs self.entry.rhs) }
    {
        match self.left {
            Node::Mul(a1, a2) => match self.right {
                Node::Exp(b) => arms::one_exp(self.pool, a1, a2, b),
                Node::Mul(b1, b2) => arms::two_exps(self.pool, a1, a2, b1, b2),
                _ => None,
            },
            Node::Exp(b) => match self.right {
                Node::Mul(a1, a2) => arms::one_exp(self.pool, a1, a2, b),
                _ => None,
            },
            _ => None,
        }
    }

    // Moving literals left.
    #[tactic(auto, using(views::proofs::Missed::mul_missed, crate::proofs::Groups::products, crate::proofs::Groups::product_left, crate::proofs::Groups::product_right, crate::proofs::Groups::no_product))]
    pub fn ahead(self) -> Option<MulRule>
        ensures { arm_of result ≡ inside (mul_left (node_at self.entry.pool.now) self.entry.lhs self.entry.rhs) }
    {
        match self.left {
            Node::Mul(a1, a2) => match self.right {
                Node::Mul(b1, b2) => arms::lits_ahead(self.pool, a1, a2, b1, b2),
                _ => arms::lit_ahead(self.pool, a1, a2, self.rhs),
            },
            _ => match self.right {
                Node::Mul(b1, b2) => arms::lit_ahead(self.pool, b1, b2, self.lhs),
                _ => None,
            },
        }
    }

    // Pow simplifications.
    #[tactic(auto, using(views::proofs::Missed::mul_missed, views::proofs::Missed::pow_missed, crate::proofs::Groups::no_factors, crate::proofs::Groups::same_factor, crate::proofs::Groups::no_power, crate::proofs::Groups::mul_pow))]
    pub fn pows(self) -> Option<MulRule>
        ensures { arm_of result ≡ inside (mul_pows (node_at self.entry.pool.now) self.entry.lhs self.entry.rhs) }
    {
        match self.left {
            Node::Mul(a1, a2) => {
                if a2 == self.rhs {
                    return Some(MulRule::Power(a1, a2, 1, 1));
                }
                match self.right {
                    Node::Pow(b, n) => arms::two_pows(self.pool, a1, a2, b, n),
                    _ => None,
                }
            }
            _ => None,
        }
    }

    // The last statements.
    #[tactic(auto, using(views::proofs::Missed::lit_missed, crate::proofs::Groups::lit_last, crate::proofs::Groups::other_last))]
    pub fn last(self) -> MulRule
        ensures { mul_term result ≡ (mul_last (node_at self.entry.pool.now) self.entry.lhs self.entry.rhs then Mul (# self.entry.lhs) (# self.entry.rhs)) }
    {
        match self.right {
            Node::Lit(_) => MulRule::Plain(self.rhs, self.lhs),
            _ => MulRule::Plain(self.lhs, self.rhs),
        }
    }
}
