// Evaluation, with a table of values from the list.
use crate::got::{Got, UNLISTED, of_answer};
use lent::Lent;
use number_list::{Numbers, half_of};

pub const EVALUATE: u64 = 22;

pub const EVALUATE_RESIDUE: u64 = 23;

pub const EVALUATE_ALIKE: u64 = 28;

// The longest table of the list whose values are written out, and the longest, whose values are all alike.
pub const VALUES_MAX: usize = 64;

pub const ALIKE_MAX: usize = 65_537;

// With the first entries of a table.
fn with_doubles(lent: &Lent, root: u64, table: &[f64], length: usize) -> Got {
    let values = table.get(..length).ok_or(UNLISTED)?;
    let x = engine_values::evaluate(lent.kinds, lent.words, *lent.count, root, values);
    of_answer(x.map(double::bits))
}

fn with_residues(lent: &Lent, root: u64, table: &[u32], length: usize) -> Got {
    let values = table.get(..length).ok_or(UNLISTED)?;
    of_answer(engine_values::evaluate_residue(lent.kinds, lent.words, *lent.count, root, values))
}

pub fn value(op: u64, list: &mut Numbers, lent: &Lent) -> Got {
    let root = list.next();
    let length = list.next_length();
    match op {
        EVALUATE => {
            let mut table = [0.0; VALUES_MAX];
            list.next_into(length, &mut table, double::of_bits);
            with_doubles(lent, root, &table, length)
        }
        EVALUATE_RESIDUE => {
            let mut table = [0u32; VALUES_MAX];
            list.next_into(length, &mut table, half_of);
            with_residues(lent, root, &table, length)
        }
        EVALUATE_ALIKE => {
            let table = [double::of_bits(list.next()); ALIKE_MAX];
            with_doubles(lent, root, &table, length)
        }
        _ => {
            let table = [half_of(list.next()); ALIKE_MAX];
            with_residues(lent, root, &table, length)
        }
    }
}
