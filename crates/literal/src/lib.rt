// Literals: whole numbers from -(2^53 - 1) to 2^53 - 1, held as an i64 and stored as a word.
#![tactic(auto)]

ghost use Rattle.std.specs.Prelude.{◌≡◌, ◌+◌, nat_abs, neg_ℤ, ◌+ℤ◌, ◌*ℤ◌};
ghost use Rattle.refusals.specs.Numbers.{numbered};
ghost use Rattle.literal.specs.Literal.{is_literal, is_zero, is_one, folded, exp_of, log_of, signed, word};

use refusals::Refusal;

// The greatest literal; the least is its negative.
pub const LITERAL_MAX: u64 = 9_007_199_254_740_991;

// How far a number is from 0.
pub fn size(z: i64) -> u64
    ensures { result ≡ nat_abs z }
{
    z.unsigned_abs()
}

pub fn is_literal(z: i64) -> bool
    ensures { result ≡ is_literal z }
{
    size(z) <= LITERAL_MAX
}

pub fn is_zero(z: i64) -> bool
    ensures { result ≡ is_zero z }
{
    z == 0
}

pub fn is_one(z: i64) -> bool
    ensures { result ≡ is_one z }
{
    z == 1
}

// The number itself, where it is a literal.
#[tactic(auto, unfolding(crate::specs::Literal::folded))]
pub fn fold(z: i64) -> Result<i64, Refusal>
    ensures { numbered result ≡ folded z }
{
    if is_literal(z) {
        return Ok(z);
    }
    Err(Refusal::OutOfRange)
}

// The sum, for any two numbers: one that does not fit an i64 is no literal.
#[tactic(auto, unfolding(crate::specs::Literal::folded))]
pub fn sum(a: i64, b: i64) -> Result<i64, Refusal>
    ensures { numbered result ≡ folded (a +ℤ b) }
{
    fold(a.checked_add(b).ok_or(Refusal::OutOfRange)?)
}

// The product, for any two numbers.
#[tactic(auto, unfolding(crate::specs::Literal::folded))]
pub fn product(a: i64, b: i64) -> Result<i64, Refusal>
    ensures { numbered result ≡ folded (a *ℤ b) }
{
    fold(a.checked_mul(b).ok_or(Refusal::OutOfRange)?)
}

#[tactic(auto, unfolding(crate::specs::Literal::folded))]
pub fn negation(z: i64) -> Result<i64, Refusal>
    ensures { numbered result ≡ folded (neg_ℤ z) }
{
    fold(z.checked_neg().ok_or(Refusal::OutOfRange)?)
}

// `exp` of a literal: of 0 alone.
#[tactic(auto, unfolding(crate::specs::Literal::exp_of))]
pub fn exp_literal(z: i64) -> Result<i64, Refusal>
    ensures { numbered result ≡ exp_of z }
{
    if is_zero(z) {
        return Ok(1);
    }
    Err(Refusal::NoExpOrLog)
}

// `log` of a literal: of 1 alone.
#[tactic(auto, unfolding(crate::specs::Literal::log_of))]
pub fn log_literal(z: i64) -> Result<i64, Refusal>
    ensures { numbered result ≡ log_of z }
{
    if is_one(z) {
        return Ok(0);
    }
    Err(Refusal::NoExpOrLog)
}

// A word read in two's complement.
pub fn from_word(w: u64) -> i64
    ensures { result ≡ signed w }
{
    w.cast_signed()
}

// The word of a number in two's complement.
pub fn to_word(z: i64) -> u64
    ensures { result ≡ word z }
{
    z.cast_unsigned()
}
