// A decimal as a double: two whole numbers that are exact, and one division.
ghost use Rattle.std.specs.Prelude.{◌≡◌, ◌^◌, ◌≤◌, pos};
ghost use Rattle.std.specs.Float.{binary64};
ghost use Rattle.std.specs.Float.Ieee.{of_int};
ghost use Rattle.literal.specs.Literal.{greatest};
ghost use Rattle.key_values.specs.Values.{most_digits, signed, quotient_of, of_digits, unsigned_of, decimal_of};

// The most digits that a decimal has.
const DIGITS: usize = 15;

// A whole number that is exact as a double.
#[tactic(auto, using(double::proofs::Exact::literal_has_double))]
fn whole(n: u64) -> f64
    requires { n ≤ greatest }
    ensures { result ≡ of_int binary64 (pos n) }
{
    n as f64
}

#[tactic(auto, using(crate::proofs::Quotients::power_within))]
fn ten_to(k: usize) -> u64
    requires { k ≤ most_digits }
    ensures { result ≡ 10 ^ k }
{
    10_u64.pow(k as u32)
}

fn with_sign(negative: bool, x: f64) -> f64
    ensures { result ≡ signed negative x }
{
    if negative { -x } else { x }
}

// p / 10^k, rounded once.
#[tactic(auto, using(crate::proofs::Quotients::power_within))]
fn quotient(negative: bool, p: u64, k: usize) -> f64
    requires exact { p ≤ greatest }
    requires few { k ≤ most_digits }
    ensures { result ≡ quotient_of negative p k }
{
    let over = with_sign(negative, whole(p));
    double::quotient(over, whole(ten_to(k)))
}

// The digits before and behind a point.
#[tactic(auto, using(sheet_line::proofs::Asking::number_within, crate::proofs::Quotients::too_many, crate::proofs::Quotients::none_joined, crate::proofs::Quotients::some_joined, crate::proofs::Quotients::no_number, crate::proofs::Quotients::number_exact, crate::proofs::Quotients::number_divided))]
fn of_digits(negative: bool, before: &[u8], behind: &[u8]) -> Option<f64>
    ensures { result ≡ of_digits negative before.now behind.now }
{
    if DIGITS < before.len() || DIGITS - before.len() < behind.len() {
        return None;
    }
    let n = sheet_line::digits(0, before)?;
    let p = sheet_line::digits(n, behind)?;
    Some(quotient(negative, p, behind.len()))
}

// Digits, or digits on both sides of a point.
#[tactic(auto, using(crate::proofs::Quotients::no_byte_there, crate::proofs::Quotients::no_point, crate::proofs::Quotients::none_before, crate::proofs::Quotients::none_behind, crate::proofs::Quotients::both_sides))]
fn unsigned(negative: bool, bytes: &[u8]) -> Option<f64>
    ensures { result ≡ unsigned_of negative bytes.now }
{
    match sheet_line::cut_at_byte(bytes, b'.') {
        Some((before, behind)) => {
            if before.is_empty() || behind.is_empty() {
                return None;
            }
            of_digits(negative, before, behind)
        }
        None => {
            if bytes.is_empty() {
                return None;
            }
            of_digits(negative, bytes, &[])
        }
    }
}

// With or without a minus in front.
#[tactic(auto, using(crate::proofs::Quotients::with_minus, crate::proofs::Quotients::without_minus))]
pub fn decimal(bytes: &[u8]) -> Option<f64>
    ensures { result ≡ decimal_of bytes.now }
{
    match bytes.strip_prefix(b"-") {
        Some(size) => unsigned(true, size),
        None => unsigned(false, bytes),
    }
}
