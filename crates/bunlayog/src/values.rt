// Evaluation as C functions.
ghost use Rattle.std.specs.Prelude.{◌≡◌};
ghost use Rattle.refusals.specs.Numbers.{numbered};
ghost use Rattle.residue.specs.Residue.{fixed_modulus};
ghost use Rattle.evaluate_residue.specs.Residues.{Below};
ghost use Rattle.engine_values.specs.Values.{evaluate_call, evaluate_residue_call};
ghost use Rattle.c_answers.specs.Interface.{value_in_c};
ghost use Rattle.c_answers.specs.Values.{bits_in_c, residue_in_c};

use c_answers::{answered, bits_answered};
use refusals::Refusal;

// A residue, or the refusal, in its place. A residue of the modulus fits 32 bits.
fn residue_answered(answer: Result<u64, Refusal>, residue: &mut u32) -> u32
    requires { Below fixed_modulus (numbered answer) }
    ensures { value_in_c result residue.new ≡ residue_in_c residue.old (numbered answer) }
{
    answered(answer.map(|x| x as u32), residue)
}

#[unsafe(no_mangle)]
pub extern "C" fn bunlayog_evaluate(
    kinds: &[u8],
    words: &[u64],
    count: u64,
    root: u64,
    values: &[f64],
    bits: &mut u64,
) -> u32
    ensures { value_in_c result bits.new ≡ bits_in_c bits.old (evaluate_call kinds.now words.now count root values.now) }
{
    bits_answered(
        engine_values::evaluate(kinds, words, count, root, values),
        bits,
    )
}

#[unsafe(no_mangle)]
pub extern "C" fn bunlayog_evaluate_residue(
    kinds: &[u8],
    words: &[u64],
    count: u64,
    root: u64,
    values: &[u32],
    residue: &mut u32,
) -> u32
    ensures { value_in_c result residue.new ≡ residue_in_c residue.old (evaluate_residue_call kinds.now words.now count root values.now) }
{
    residue_answered(
        engine_values::evaluate_residue(kinds, words, count, root, values),
        residue,
    )
}
