// Evaluation by residues: what is done at each node of the walk.
#![tactic(auto)]

ghost use Rattle.std.specs.Prelude.{◌≡◌, ◌<◌};
ghost use Rattle.refusals.specs.Numbers.{numbered};
ghost use Rattle.pool.specs.Nodes.{parts};
ghost use Rattle.pool.specs.Tables.{nodes};
ghost use Rattle.walks.specs.EvaluateResidue.{value_of_variable, residue_node, evaluate_residue};
ghost use Rattle.evaluate_residue.specs.Residues.{AreResidues};
ghost use Rattle.value_walk.specs.Walk.{Ready, in_table};
ghost use Rattle.value_walk.proofs.Residues.{laws};

use pool::{LIMIT, Node, Tables};
use refusals::Refusal;
use value_walk::{Values, kept_at};

// A variable's entry in the table of values.
fn value_of_variable(values: &[u32], v: u32) -> Result<u64, Refusal>
    ensures { numbered result ≡ value_of_variable values.now v }
{
    value_walk::value_given(values, v).map(u64::from)
}

// The residue of a node whose parts' residues are kept. Exp, Log and Max have none. Compiled into both places that call it, so that each has its own modulus.
#[inline(always)]
fn residue_node(
    residues: residue::Residues,
    values: &[u32],
    kept: &[u64],
    node: Node,
) -> Result<u64, Refusal>
    requires { Ready (λ x. x < residues.modulus) kept.now (parts node) }
    ensures { numbered result ≡ residue_node residues.modulus values.now (in_table kept.now) node }
{
    match node {
        Node::Empty => Err(Refusal::BrokenPool),
        Node::Variable(v) => value_of_variable(values, v),
        Node::Lit(z) => Ok(residues.residue_of(z)),
        Node::Add(a, b) => Ok(residues.sum(kept_at(kept, a), kept_at(kept, b))),
        Node::Mul(a, b) => Ok(residues.product(kept_at(kept, a), kept_at(kept, b))),
        Node::Div(a, b) => residues.quotient(kept_at(kept, a), kept_at(kept, b)),
        Node::Pow(a, e) => Ok(residues.power(kept_at(kept, a), e)),
        Node::Exp(_) | Node::Log(_) | Node::Max(_, _) => Err(Refusal::NotEvaluated),
    }
}

// The residues of the variables, by a modulus.
#[derive(Drop)]
struct Given<'a> {
    residues: residue::Residues,
    values: &'a [u32],
    ghost below: { AreResidues residues.modulus values.now },
}

impl<'a> Values for Given<'a> {
    type Value = u64;

    ghost at_node = { λ of. residue_node of.residues.modulus of.values.now };

    ghost fits = { λ of x. x < of.residues.modulus };

    ghost laws = { λ of. laws of.residues.modulus of.values.now of.residues.is_modulus of.below.below };

    // The fixed modulus has a place of its own, since the compiler turns division by a number that it knows into multiplication: without that, an expression with
    // powers took 1.3 to 2.2 times as long (docs/DECISIONS.md).
    fn joined(&self, kept: &[u64], node: Node) -> Result<u64, Refusal> {
        if self.residues.modulus == residue::MODULUS {
            return residue_node(
                residue::Residues::of(residue::MODULUS),
                self.values,
                kept,
                node,
            );
        }
        residue_node(self.residues, self.values, kept, node)
    }
}

// The residue of the expression at a root.
pub fn evaluate_residue_from(
    tables: Tables<'_>,
    residues: residue::Residues,
    values: &[u32],
    root: u32,
) -> Result<u64, Refusal>
    requires { AreResidues residues.modulus values.now }
    ensures { numbered result ≡ evaluate_residue residues.modulus (nodes tables.entry) values.now root }
{
    let mut kept = [0; LIMIT];
    let given = Given { residues, values };
    value_walk::value_from(&given, tables, &mut kept, root)
}
