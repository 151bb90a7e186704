// Numbers, names of variables and exponents written to an output.
ghost use Rattle.text.specs.Text.{decimal, signed_decimal, display};
ghost use Rattle.low_bytes.specs.Output.{Wrote};

use low_bytes::{Place, put, write};

// The digits of a number. One or two, as most numbers have, are put byte by byte: they take no text of their own.
#[tactic(auto, using(low_bytes::proofs::Writing::written_after, crate::proofs::ShortNumbers::of_one_digit, crate::proofs::ShortNumbers::of_two_digits))]
fn write_decimal(out: &mut [u8], at: Place, n: u64) -> Place
    ensures { Wrote at out.old (decimal n) result out.new }
{
    if n < 10 {
        return put(out, at, (48 + n) as u8);
    }
    if n < 100 {
        let tens = put(out, at, (48 + n / 10) as u8);
        return put(out, tens, (48 + n % 10) as u8);
    }
    write(out, at, text::decimal_text(n).as_bytes())
}

// A variable's name. Most variables are a letter, which takes no text of its own.
#[tactic(auto, using(text::proofs::Forms::a_letter))]
pub fn write_variable(out: &mut [u8], at: Place, v: u32) -> Place
    ensures { Wrote at out.old (display v) result out.new }
{
    let number = v as u64;
    if number < text::LETTERS {
        return put(out, at, text::letter(number));
    }
    write(out, at, text::variable_text(number).as_bytes())
}

// A literal: its sign where it is below 0, and its size.
#[tactic(auto, using(low_bytes::proofs::Writing::written_after, text::proofs::Forms::signed_below, text::proofs::Forms::signed_else))]
pub fn write_literal(out: &mut [u8], at: Place, z: i64) -> Place
    ensures { Wrote at out.old (signed_decimal z) result out.new }
{
    if z < 0 {
        let signed = put(out, at, b'-');
        return write_decimal(out, signed, literal::size(z));
    }
    write_decimal(out, at, literal::size(z))
}

// The exponent of a power.
pub fn write_exponent(out: &mut [u8], at: Place, e: u32) -> Place
    ensures { Wrote at out.old (decimal e) result out.new }
{
    write_decimal(out, at, e as u64)
}
