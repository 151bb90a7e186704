// The input line of the coefficient sheet, read byte by byte: variable, order and, if wanted, point.
#![tactic(auto)]

ghost use Rattle.std.specs.Prelude.{◌≡◌, [], ◌∷◌, ◌≤◌, eqb, position, take};
ghost use Rattle.sheet_text.specs.Line.{digits_from, decimal_of, point_of, line_of, parse};
ghost use Rattle.sheet_line.specs.Cut.{cut_at, cut_number, cut_whole, cut_line};
ghost use Rattle.sheet_line.specs.Split.{content_length, split, IsCutAt};

use sheet_text::Asked;

// One more than the greatest literal: numbers of the line are cut off here, which no test of them can tell.
const CUT: u64 = 0x20_0000_0000_0000;

// The longest line, with its line end.
pub const LINE_MAX: usize = 64;

// The value of digits after those that gave a number, cut off with each of them: where a number is past the cut, so is every number that goes on from it.
#[tactic(auto, using(crate::proofs::Numbers::starts, crate::proofs::Numbers::turn, crate::proofs::Numbers::stops, crate::proofs::Numbers::ends))]
pub fn digits(before: u64, bytes: &[u8]) -> Option<u64>
    requires { before ≤ cut_at }
    ensures { result ≡ cut_number (digits_from before bytes.now) }
{
    let mut n = before;
    for byte in bytes {
        if !byte.is_ascii_digit() {
            return None;
        }
        n = (10 * n + u64::from(*byte - b'0')).min(CUT);
    }
    Some(n)
}

// Digits without a leading zero.
#[tactic(auto, using(crate::proofs::Numbers::no_digit, crate::proofs::Numbers::leading_zero, crate::proofs::Numbers::more_digits, crate::proofs::Numbers::one_digit))]
fn decimal(bytes: &[u8]) -> Option<u64>
    ensures { result ≡ cut_number (decimal_of bytes.now) }
{
    let (first, rest) = bytes.split_first()?;
    if *first == b'0' && !rest.is_empty() {
        return None;
    }
    digits(0, bytes)
}

// A minus stands only before a nonzero number.
#[tactic(auto, using(crate::proofs::Asking::number_within, crate::proofs::Asking::minus_fits, crate::proofs::Asking::no_byte, crate::proofs::Asking::minus_none, crate::proofs::Asking::minus_zero, crate::proofs::Asking::minus_some, crate::proofs::Asking::plain_none, crate::proofs::Asking::plain_some))]
fn point(bytes: &[u8]) -> Option<i64>
    ensures { result ≡ cut_whole (point_of bytes.now) }
{
    let (first, rest) = bytes.split_first()?;
    if *first == b'-' {
        let n = decimal(rest)?;
        if n == 0 {
            return None;
        }
        return Some(-(n as i64));
    }
    let n = decimal(bytes)?;
    Some(n as i64)
}

// The place of the first byte that is the one wanted, if there is one.
fn place_of(bytes: &[u8], wanted: u8) -> Option<usize>
    ensures { result ≡ position (λ b. eqb b wanted) bytes.now }
{
    bytes.iter().position(|byte| *byte == wanted)
}

// What stands before the first byte that is the one wanted, and what behind it.
#[tactic(auto, using(crate::proofs::Splitting::none_found))]
pub fn cut_at_byte(bytes: &[u8], wanted: u8) -> Option<(&[u8], &[u8])>
    ensures { IsCutAt result wanted bytes.now }
{
    let at = place_of(bytes, wanted)?;
    Some((&bytes[..at], &bytes[at + 1..]))
}

// What stands before a line end that is the last byte.
pub fn content(bytes: &[u8]) -> &[u8]
    ensures { result.now ≡ take (content_length bytes.now) bytes.now }
{
    bytes.strip_suffix(b"\n").unwrap_or(bytes)
}

fn two_fields(var: &[u8], order: &[u8]) -> Option<Asked>
    ensures { result ≡ cut_line (line_of (var.now ∷ order.now ∷ [])) }
{
    let var = decimal(var)?;
    let order = decimal(order)?;
    Some(Asked {
        var,
        order,
        point: None,
    })
}

fn three_fields(var: &[u8], order: &[u8], place: &[u8]) -> Option<Asked>
    ensures { result ≡ cut_line (line_of (var.now ∷ order.now ∷ place.now ∷ [])) }
{
    let var = decimal(var)?;
    let order = decimal(order)?;
    let point = point(place)?;
    Some(Asked {
        var,
        order,
        point: Some(point),
    })
}

// A line whose first two fields are known: what is left is the point alone.
#[tactic(auto, using(crate::proofs::Asking::too_many, crate::proofs::Splitting::two_fields, crate::proofs::Splitting::no_space_split))]
fn last_field(var: &[u8], order: &[u8], place: &[u8]) -> Option<Asked>
    ensures { result ≡ cut_line (line_of (var.now ∷ order.now ∷ split place.now)) }
{
    if place.contains(&b' ') {
        return None;
    }
    three_fields(var, order, place)
}

// A line whose first field is known: what is left is one field or two.
#[tactic(auto, using(crate::proofs::Splitting::one_field, crate::proofs::Splitting::first_field))]
fn after_var(var: &[u8], rest: &[u8]) -> Option<Asked>
    ensures { result ≡ cut_line (line_of (var.now ∷ split rest.now)) }
{
    match cut_at_byte(rest, b' ') {
        None => two_fields(var, rest),
        Some((order, place)) => last_field(var, order, place),
    }
}

// What a line asks for, if it has the form.
#[tactic(auto, using(crate::proofs::Asking::too_long, crate::proofs::Asking::not_too_long, crate::proofs::Splitting::one_field, crate::proofs::Splitting::first_field))]
pub fn parse(line: &[u8]) -> Option<Asked>
    ensures { result ≡ cut_line (parse line.now) }
{
    if LINE_MAX < line.len() {
        return None;
    }
    let (var, rest) = cut_at_byte(content(line), b' ')?;
    after_var(var, rest)
}
