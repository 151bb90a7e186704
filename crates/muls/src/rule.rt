// Which rule of `exp` holds: the pool is read, and nothing is made.
ghost use Rattle.std.specs.Prelude.{◌≡◌};
ghost use Rattle.constructors.specs.Tables.{exp_table};
ghost use Rattle.pool.specs.Pool.{node_at};
ghost use Rattle.muls.specs.Rule.{exp_term};

use pool::{Node, Pool};

// What is to be built, a term of the definition's table. It is found first and then built, since the pool is only read while the rule is sought. Numbers of nodes are u32, literals i64.
#[derive(Clone, Copy)]
pub enum ExpRule {
    // lit(1)
    One,
    // lit(z.exp())
    Literal(i64),
    // mul(lit(z.exp()), exp(a))
    Shifted(i64, u32),
    // the plain node Exp(a)
    Plain(u32),
}

#[tactic(auto, using(views::proofs::Missed::lit_missed, views::proofs::Missed::add_missed, crate::proofs::Tables::exp_of_zero, crate::proofs::Tables::exp_of_lit, crate::proofs::Tables::exp_of_shifted, crate::proofs::Tables::exp_of_sum, crate::proofs::Tables::exp_of_other))]
pub fn exp_rule(pool: &Pool, arg: u32) -> ExpRule
    ensures { exp_term result ≡ exp_table (node_at pool.now) arg }
{
    match pool.node(arg) {
        Node::Lit(z) if literal::is_zero(z) => ExpRule::One,
        Node::Lit(z) => ExpRule::Literal(z),
        Node::Add(a, b) => match views::literal_at(pool, b) {
            Some(z) => ExpRule::Shifted(z, a),
            None => ExpRule::Plain(arg),
        },
        _ => ExpRule::Plain(arg),
    }
}
