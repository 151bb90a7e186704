// An entry point's answer in C's terms: what it gives goes to its place, and a refusal leaves the place as it was. The number is 0 or the refusal's.
#![tactic(auto)]

ghost use Rattle.std.specs.Prelude.{◌≡◌};
ghost use Rattle.refusals.specs.Numbers.{numbered};
ghost use Rattle.c_answers.specs.Interface.{number_of, given_or, value_in_c};
ghost use Rattle.c_answers.specs.Values.{bits_in_c};
ghost use Rattle.c_answers.specs.Expansions.{outcome_returned_in_c, outcome_in_c};

use lent_series::Series;
use refusals::Refusal;
use taylor::TERMS;

// A node number, a length, a residue: any answer that has one place.
pub fn answered<T: Copy>(answer: Result<T, Refusal>, place: &mut T) -> u32
    ensures value { result ≡ number_of (numbered answer) }
    ensures place_after { place.new ≡ given_or (numbered answer) place.old }
{
    match answer {
        Ok(value) => {
            *place = value;
            0
        }
        Err(refusal) => refusal.number(),
    }
}

// A double goes to its place as its bits.
pub fn bits_answered(answer: Result<f64, Refusal>, bits: &mut u64) -> u32
    ensures { value_in_c result bits.new ≡ bits_in_c bits.old (numbered answer) }
{
    answered(answer.map(double::bits), bits)
}

// An expansion has two places, so this is no case of `answered`.
pub fn outcome_answered(
    outcome: Result<Series, Refusal>,
    order: &mut u64,
    coeffs: &mut [u64; TERMS],
) -> u32
    ensures { outcome_returned_in_c result order.new coeffs.new ≡ outcome_in_c order.old coeffs.old (numbered outcome) }
{
    match outcome {
        Ok(series) => {
            // by a name: of `*coeffs = series.coeffs`, which was tried, the check does not find the contract by itself
            let entries = series.coeffs;
            *order = series.order;
            *coeffs = entries;
            0
        }
        Err(k) => k.number(),
    }
}
