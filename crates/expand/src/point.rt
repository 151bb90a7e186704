// The sought variable, at a point.
ghost use Rattle.std.specs.Prelude.{◌≡◌, ◌<◌};
ghost use Rattle.pool.specs.Made.{made};
ghost use Rattle.taylor.specs.Coefficients.{terms};
ghost use Rattle.taylor.specs.Expand.{point_node, is_point};
ghost use Rattle.expand.specs.Nodes.{variable_work};

use pool::{Node, Pool};
use refusals::Refusal;
use taylor::Expansion;

// What is asked of each node: the variable, the point at which it is expanded (its own, if there is none), and the order, which is at most 24.
#[derive(Drop)]
pub struct Asked {
    pub var: u32,
    pub point: Option<i64>,
    pub order: u32,
    ghost small: { order < terms },
}

// Whether the point is a literal, if there is one.
pub fn is_point(point: Option<i64>) -> bool
    ensures { result ≡ is_point point }
{
    point.is_none_or(literal::is_literal)
}

// The node of the point that is asked: a new variable, or a new literal.
fn point_in(pool: &mut Pool, asked: &Asked) -> Result<u32, Refusal>
    ensures { made result pool.new ≡ point_node asked.now.var asked.now.point pool.old }
{
    match asked.point {
        None => pool.append(Node::Variable(asked.var)),
        Some(z) => adds::lit_in(pool, literal::fold(z)),
    }
}

// The expansion of the variable.
pub fn variable_in(pool: &mut Pool, asked: &Asked) -> Result<Expansion, Refusal>
    ensures { made result pool.new ≡ variable_work asked.now.var asked.now.point asked.now.order pool.old }
{
    let x = point_in(pool, asked)?;
    taylor_base::var_in(pool, x, asked.order)
}
