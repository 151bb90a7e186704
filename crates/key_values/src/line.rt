// A line of values, put into a lent table one by one.
ghost use Rattle.std.specs.Prelude.{◌≡◌, ◌≤◌, length};
ghost use Rattle.sheet_line.specs.Split.{split};
ghost use Rattle.key_values.specs.Values.{value_of, each_of, values_of};
ghost use Rattle.key_values.specs.Filled.{Fills, kept, place_after};

use crate::decimal::decimal;
use crate::hex::bits;

// The longest line that the program takes: 65,537 values of one digit with a byte behind each, so that too many values can be given.
pub const LINE_MAX: usize = 131_074;

// One value: the bits of a double, or a decimal.
#[tactic(auto, unfolding(crate::specs::Values::value_of))]
fn value(bytes: &[u8]) -> Option<f64>
    ensures { result ≡ value_of bytes.now }
{
    bits(bytes).map(double::of_bits).or_else(|| decimal(bytes))
}

// A value into its place, if the table has one; how many values it has then.
#[tactic(auto, unfolding(crate::specs::Filled::kept, crate::specs::Filled::place_after))]
fn keep(table: &mut [f64], n: usize, x: f64) -> usize
    requires { n ≤ length table.old }
    ensures value { result ≡ place_after n table.old }
    ensures table_after { table.new ≡ kept table.old n x }
{
    if n < table.len() {
        table[n] = x;
        return n + 1;
    }
    n
}

// The values between single spaces.
fn fill_fields(text: &[u8], table: &mut [f64]) -> Option<usize>
    ensures { Fills result table.new (each_of (split text.now)) }
{
    let mut n = 0;
    for field in text.split(|byte| *byte == b' ') {
        let x = value(field)?;
        n = keep(table, n, x);
    }
    Some(n)
}

// The values of a line, as many as find a place in the table, and how many it has then; nothing where the line is no list of values.
#[tactic(auto, using(crate::proofs::Filling::no_values, crate::proofs::Filling::values_given))]
pub fn fill(line: &[u8], table: &mut [f64]) -> Option<usize>
    ensures { Fills result table.new (values_of line.now) }
{
    let text = sheet_line::content(line);
    if text.is_empty() {
        return Some(0);
    }
    fill_fields(text, table)
}
