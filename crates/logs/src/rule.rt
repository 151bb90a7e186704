// Which rule of `log` and of `div` holds: the pool is read, and nothing is made.
ghost use Rattle.std.specs.Prelude.{◌≡◌};
ghost use Rattle.constructors.specs.Tables.{log_table, div_table};
ghost use Rattle.pool.specs.Pool.{node_at};
ghost use Rattle.logs.specs.Rule.{log_term, div_term};

use pool::{Node, Pool};

// What `log` has to build, a term of the definition's table. It is found first and then built, since the pool is only read while the rule is sought.
#[derive(Clone, Copy)]
pub enum LogRule {
    // lit(0)
    Zero,
    // lit(a.log())
    Literal(i64),
    // add(log(b), lit(a.log()))
    Product(i64, u32),
    // the plain node Log(a)
    Plain(u32),
}

// What `div` has to build, as `LogRule`.
#[derive(Clone, Copy)]
pub enum DivRule {
    // lit(0)
    Zero,
    // the node itself
    Same(u32),
    // the plain node Div(a, b)
    Plain(u32, u32),
}

#[tactic(auto, using(views::proofs::Missed::lit_missed, views::proofs::Missed::mul_missed, crate::proofs::Rules::log_of_one, crate::proofs::Rules::log_of_lit, crate::proofs::Rules::log_of_product, crate::proofs::Rules::log_beside_product, crate::proofs::Rules::log_beside))]
pub fn log_rule(pool: &Pool, arg: u32) -> LogRule
    ensures { log_term result ≡ log_table (node_at pool.now) arg }
{
    match pool.node(arg) {
        Node::Lit(a) if literal::is_one(a) => LogRule::Zero,
        Node::Lit(a) => LogRule::Literal(a),
        Node::Mul(a, b) => match views::literal_at(pool, a) {
            Some(x) => LogRule::Product(x, b),
            None => LogRule::Plain(arg),
        },
        _ => LogRule::Plain(arg),
    }
}

pub fn div_rule(pool: &Pool, lhs: u32, rhs: u32) -> DivRule
    ensures { div_term result ≡ div_table (node_at pool.now) lhs rhs }
{
    if views::literal_at(pool, lhs).is_some_and(literal::is_zero) {
        return DivRule::Zero;
    }
    if views::literal_at(pool, rhs).is_some_and(literal::is_one) {
        return DivRule::Same(lhs);
    }
    DivRule::Plain(lhs, rhs)
}
