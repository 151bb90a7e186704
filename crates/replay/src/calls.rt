// One call of the list, by the number of its operation.
use crate::answers::{node_is_right, value_is_right};
use lent::Lent;
use number_list::Numbers;
use pool::LIMIT;
use replay_calls::same_pools;

pub const EVALUATE: u64 = 22;

pub const EVALUATE_RESIDUE: u64 = 23;

pub const PRINT: u64 = 24;

pub const WRITE: u64 = 25;

pub const CHECK: u64 = 27;

pub const EVALUATE_ALIKE: u64 = 28;

pub const EVALUATE_RESIDUE_ALIKE: u64 = 29;

pub const FROM_COEFFICIENTS: u64 = 31;

pub const COEFF: u64 = 32;

pub const DERIVATIVE: u64 = 33;

pub const ORDER: u64 = 34;

pub const PRINT_REPEATED: u64 = 47;

pub const LENT: u64 = 48;

pub const STRIP: u64 = 49;

pub const RUN_STRIP: u64 = 50;

pub const RUN_STRIP_ALIKE: u64 = 51;

const FIRST_EXPANSION: u64 = 30;

// The answer alone. What is not named here gives a node below FIRST_EXPANSION, and an expansion from there on.
fn answer_is_right(op: u64, list: &mut Numbers, lent: &mut Lent, listed: &mut Lent) -> bool {
    match op {
        EVALUATE | EVALUATE_RESIDUE | EVALUATE_ALIKE | EVALUATE_RESIDUE_ALIKE => {
            value_is_right(op, list, lent)
        }
        ORDER | RUN_STRIP | RUN_STRIP_ALIKE => value_is_right(op, list, lent),
        PRINT | WRITE | PRINT_REPEATED | STRIP => replay_calls::text_is_right(op, list, lent),
        CHECK => replay_calls::check_is_right(list, lent),
        FROM_COEFFICIENTS => replay_series::list_is_right(list, lent),
        COEFF | DERIVATIVE => node_is_right(op, list, lent, listed),
        _ => {
            if op < FIRST_EXPANSION {
                return node_is_right(op, list, lent, listed);
            }
            replay_series::expansion_is_right(op, list, lent, listed)
        }
    }
}

// The answer, and then every entry of both tables and the count.
fn all_is_right(op: u64, list: &mut Numbers, lent: &mut Lent, listed: &mut Lent) -> bool {
    if !answer_is_right(op, list, lent, listed) {
        return false;
    }
    same_pools(lent, listed)
}

// The first entries of the tables, as many kinds and as many words as said.
fn first_of<'a>(
    kinds: &'a mut [u8],
    words: &'a mut [u64],
    count: &'a mut u64,
    m: usize,
    n: usize,
) -> Option<Lent<'a>> {
    let kinds = kinds.get_mut(..m)?;
    let words = words.get_mut(..n)?;
    Some(Lent {
        kinds,
        words,
        count,
    })
}

// With the first entries of the tables lent.
fn lent_is_right(
    m: usize,
    n: usize,
    op: u64,
    list: &mut Numbers,
    lent: &mut Lent,
    listed: &mut Lent,
) -> bool {
    match (
        first_of(lent.kinds, lent.words, lent.count, m, n),
        first_of(listed.kinds, listed.words, listed.count, m, n),
    ) {
        (Some(mut first), Some(mut first_listed)) => {
            all_is_right(op, list, &mut first, &mut first_listed)
        }
        _ => false,
    }
}

// A call with tables of the right lengths, or of those that the list gives before it.
pub fn call_is_right(op: u64, list: &mut Numbers, lent: &mut Lent, listed: &mut Lent) -> bool {
    if op != LENT {
        return lent_is_right(LIMIT, LIMIT, op, list, lent, listed);
    }
    let m = list.next_length();
    let n = list.next_length();
    let call = list.next();
    lent_is_right(m, n, call, list, lent, listed)
}
