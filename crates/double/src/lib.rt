// Doubles by document 01's rules: each operation rounds once, in a fixed order.
#![tactic(auto)]

ghost use Rattle.std.specs.Prelude.{◌≡◌};
ghost use Rattle.std.specs.Float.{binary64};
ghost use Rattle.std.specs.Float.Ieee.{add, mul, div, to_bits, nan_bits, of_bits};
ghost use Rattle.refusals.specs.Numbers.{numbered};
ghost use Rattle.double.specs.Double.{double_of, with_lowest, pow_of, max_of};

use refusals::Refusal;

// A literal as a double. Every literal is exact.
#[tactic(auto, unfolding(crate::specs::Double::double_of), using(crate::proofs::Exact::has_double))]
pub fn of_literal(z: i64) -> Result<f64, Refusal>
    ensures { numbered result ≡ double_of z }
{
    if literal::is_literal(z) {
        return Ok(z as f64);
    }
    Err(Refusal::NotLiteral)
}

pub fn sum(x: f64, y: f64) -> f64
    ensures { result ≡ add binary64 x y }
{
    x + y
}

pub fn product(x: f64, y: f64) -> f64
    ensures { result ≡ mul binary64 x y }
{
    x * y
}

pub fn quotient(x: f64, y: f64) -> f64
    ensures { result ≡ div binary64 x y }
{
    x / y
}

// The power so far, with the exponent's lowest bit: multiplied where it is one.
fn with_bit(acc: f64, b: f64, n: u32) -> f64
    ensures { result ≡ with_lowest acc b n }
{
    if n % 2 == 1 {
        return acc * b;
    }
    acc
}

// Starts at 1, multiplies where a bit of the exponent is one, and squares while higher bits remain.
#[tactic(auto, using(crate::proofs::Powers::after_a_turn, crate::proofs::Powers::at_last))]
pub fn pow(x: f64, e: u32) -> f64
    ensures { result ≡ pow_of x e }
{
    let mut acc = 1.0;
    let mut b = x;
    let mut n = e;
    // `while`, and no `for`: there is a turn for each bit of the exponent but the highest, and no use for a bit's place.
    while 1 < n {
        acc = with_bit(acc, b, n);
        b = b * b;
        n = n / 2;
    }
    with_bit(acc, b, n)
}

// The left value if it is greater or the right one is NaN, else the right one.
#[tactic(auto, unfolding(crate::specs::Double::max_of))]
pub fn max(x: f64, y: f64) -> f64
    ensures { result ≡ max_of x y }
{
    if y < x {
        return x;
    }
    if y.is_nan() {
        return x;
    }
    y
}

// The 64 bits of a double, a NaN's being 7FF8000000000000.
#[tactic(auto, using(crate::proofs::Nans::bits_of_nan))]
pub fn bits(x: f64) -> u64
    ensures { result ≡ to_bits binary64 x }
{
    if x.is_nan() {
        return 0x7ff8_0000_0000_0000;
    }
    x.to_bits()
}

// The weight of the sign, the weight of the exponent's field, and that field of an infinity or a NaN.
const SIGN: u64 = 0x8000_0000_0000_0000;

const EXPONENT: u64 = 0x10_0000_0000_0000;

const ONES: u64 = 2047;

// Told from the bits: `f64::from_bits(bits).is_nan()` may not be asked, since `from_bits` requires bits of no NaN.
#[tactic(auto, using(crate::proofs::Nans::nan_bits_are))]
fn is_nan(bits: u64) -> bool
    ensures { result ≡ nan_bits binary64 bits }
{
    bits % SIGN / EXPONENT == ONES && bits % EXPONENT != 0
}

// The double of 64 bits. Every pattern of a NaN gives the one NaN.
#[tactic(auto, using(crate::proofs::Nans::nan_of_bits))]
pub fn of_bits(bits: u64) -> f64
    ensures { result ≡ of_bits binary64 bits }
{
    if is_nan(bits) {
        return f64::NAN;
    }
    f64::from_bits(bits)
}
