// Evaluation as calls from outside. Why both tables and the count are three parameters stands at `lent::tables`.
#![tactic(auto)]

ghost use Rattle.std.specs.Prelude.{◌≡◌};
ghost use Rattle.refusals.specs.Numbers.{numbered};
ghost use Rattle.engine_values.specs.Values.{evaluate_call, evaluate_residue_call, are_residues};

use refusals::Refusal;
use residue::Residues;

// How many values a table has at most.
pub const VALUES_MAX: usize = 65_536;

// The value of an expression as a double, from a table with one double for each variable.
#[tactic(auto, unfolding(crate::specs::Values::evaluate_call), using(lent::proofs::Calling::one_fits))]
pub fn evaluate(
    kinds: &[u8],
    words: &[u64],
    count: u64,
    root: u64,
    values: &[f64],
) -> Result<f64, Refusal>
    ensures { numbered result ≡ evaluate_call kinds.now words.now count root values.now }
{
    let tables = lent::tables(kinds, words, count)?;
    lent::one_given(count, root)?;
    if VALUES_MAX < values.len() {
        return Err(Refusal::WrongValues);
    }
    evaluate::evaluate_from(tables, values, root as u32)
}

// The fixed modulus, as a residue's type has it.
const MODULUS: u32 = residue::MODULUS as u32;

// Whether a table holds residues, and not too many of them.
fn are_residues(values: &[u32]) -> bool
    ensures { result ≡ are_residues values.now }
{
    values.len() <= VALUES_MAX && values.iter().all(|value| *value < MODULUS)
}

// The residue of an expression, from a table with one residue for each variable.
#[tactic(auto, unfolding(crate::specs::Values::evaluate_residue_call), using(lent::proofs::Calling::one_fits, crate::proofs::Evaluates::residues_below))]
pub fn evaluate_residue(
    kinds: &[u8],
    words: &[u64],
    count: u64,
    root: u64,
    values: &[u32],
) -> Result<u64, Refusal>
    ensures { numbered result ≡ evaluate_residue_call kinds.now words.now count root values.now }
{
    let tables = lent::tables(kinds, words, count)?;
    lent::one_given(count, root)?;
    if !are_residues(values) {
        return Err(Refusal::WrongValues);
    }
    let residues = Residues::of(residue::MODULUS);
    evaluate_residue::evaluate_residue_from(tables, residues, values, root as u32)
}
