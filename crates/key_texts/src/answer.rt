// The answer of a run: the bits of a double in hexadecimal digits, and whether it is a number.
ghost use Rattle.std.specs.Prelude.{◌≡◌, ◌<◌, ◌≤◌, cond, length};
ghost use Rattle.std.specs.Float.Ieee.{is_nan};
ghost use Rattle.low_bytes.specs.Output.{Wrote};
ghost use Rattle.text.specs.Text.{bytes};
ghost use Rattle.key_texts.specs.Answers.{hex_digit, hex_text, answer_line};
ghost use Rattle.key_texts.specs.Lines.{line_room, AtFront};

use low_bytes::{Place, put, write};

// How many hexadecimal digits 64 bits have.
const BITS_DIGITS: u32 = 16;

// The byte of a digit.
fn hex_digit(digit: u8) -> u8
    requires { digit < 16 }
    ensures { result ≡ hex_digit digit }
{
    match digit {
        0..=9 => b'0' + digit,
        _ => b'A' + (digit - 10),
    }
}

// So many digits of a number, the highest first: those of its sixteenth, then its lowest.
#[tactic(auto, using(low_bytes::proofs::Writing::none_written, low_bytes::proofs::Writing::written_as, low_bytes::proofs::Writing::stays_countable, crate::proofs::HexTexts::no_digits))]
fn put_hex(out: &mut [u8], at: Place, digits: u32, n: u64) -> Place
    ensures { Wrote at out.old (hex_text digits n) result out.new }
{
    if digits == 0 {
        return at;
    }
    let last = put_hex(out, at, digits - 1, n / 16);
    put(out, last, hex_digit((n % 16) as u8))
}

// What is said of a double behind its bits.
fn kind_of(x: f64) -> &'static [u8]
    ensures { result.now ≡ cond (is_nan x) (bytes " NaN\n") (bytes " number\n") }
{
    if x.is_nan() { b" NaN\n" } else { b" number\n" }
}

// The line of a double.
fn put_double(out: &mut [u8], x: f64) -> Place
    ensures { Wrote 0 out.old (answer_line x) result out.new }
{
    let end = put_hex(out, Place::front(), BITS_DIGITS, double::bits(x));
    write(out, end, kind_of(x))
}

// The line of a double, at the front of an output that has room for it.
#[tactic(auto, using(crate::proofs::Lengths::at_front, crate::proofs::Lengths::end_fits, crate::proofs::HexTexts::answer_is_short))]
pub fn put_answer(out: &mut [u8], x: f64) -> usize
    requires { line_room ≤ length out.old }
    ensures { AtFront (answer_line x) result out.new }
{
    put_double(out, x).number()
}
