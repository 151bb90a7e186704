// Evaluation as doubles: what is done at each node of the walk.
#![tactic(auto)]

ghost use Rattle.std.specs.Prelude.{◌≡◌};
ghost use Rattle.refusals.specs.Numbers.{numbered};
ghost use Rattle.pool.specs.Tables.{nodes};
ghost use Rattle.walks.specs.Evaluate.{value_of_variable, evaluate_node, evaluate};
ghost use Rattle.value_walk.proofs.Doubles.{laws};

use pool::{LIMIT, Node, Tables};
use refusals::Refusal;
use value_walk::{Values, kept_at};

// A variable's entry in the table of values.
pub fn value_of_variable(values: &[f64], v: u32) -> Result<f64, Refusal>
    ensures { numbered result ≡ value_of_variable values.now v }
{
    value_walk::value_given(values, v)
}

// The values of the variables.
#[derive(Drop)]
struct Doubles<'a> {
    values: &'a [f64],
}

impl<'a> Values for Doubles<'a> {
    type Value = f64;

    ghost at_node = { λ of. evaluate_node of.values.now };

    ghost fits = { λ of x. Unit };

    ghost laws = { λ of. laws of.values.now };

    fn joined(&self, kept: &[f64], node: Node) -> Result<f64, Refusal> {
        match node {
            Node::Empty => Err(Refusal::BrokenPool),
            Node::Variable(v) => value_of_variable(self.values, v),
            Node::Lit(z) => double::of_literal(z),
            Node::Add(a, b) => Ok(double::sum(kept_at(kept, a), kept_at(kept, b))),
            Node::Mul(a, b) => Ok(double::product(kept_at(kept, a), kept_at(kept, b))),
            Node::Div(a, b) => Ok(double::quotient(kept_at(kept, a), kept_at(kept, b))),
            Node::Exp(_) | Node::Log(_) => Err(Refusal::NotEvaluated),
            Node::Pow(a, e) => Ok(double::pow(kept_at(kept, a), e)),
            Node::Max(a, b) => Ok(double::max(kept_at(kept, a), kept_at(kept, b))),
        }
    }
}

// The value of the expression at a root.
pub fn evaluate_from(tables: Tables<'_>, values: &[f64], root: u32) -> Result<f64, Refusal>
    ensures { numbered result ≡ evaluate (nodes tables.entry) values.now root }
{
    let mut kept = [0.0; LIMIT];
    value_walk::value_from(&Doubles { values }, tables, &mut kept, root)
}
