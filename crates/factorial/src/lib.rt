// Factorials as literals.
#![tactic(auto)]

ghost use Rattle.std.specs.Prelude.{◌≡◌, pos};
ghost use Rattle.refusals.specs.Numbers.{numbered};
ghost use Rattle.literal.specs.Literal.{folded};
ghost use Rattle.factorial.specs.Factorial.{factorial_of};

use refusals::Refusal;

// n!, or `OutOfRange` where it is no literal: the running product from 1. The first product past the range is 19!, so no n takes more than nineteen turns, and every product fits.
#[tactic(auto, unfolding(crate::specs::Factorial::factorial_of), using(crate::proofs::Running::next_product, crate::proofs::Running::product_past_the_literals, crate::proofs::Running::last_fits, crate::proofs::Running::last_product))]
pub fn factorial(n: u64) -> Result<i64, Refusal>
    ensures { numbered result ≡ folded (pos (factorial_of n)) }
{
    let mut product: u64 = 1;
    for i in 0..n {
        product = product * (i + 1);
        if literal::LITERAL_MAX < product {
            return Err(Refusal::OutOfRange);
        }
    }
    Ok(product as i64)
}
