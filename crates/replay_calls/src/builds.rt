// The constructors, by the numbers that the list has for them.
use lent::Lent;
use number_list::{Numbers, half_of};
use refusals::Refusal;

pub const LIT: u64 = 10;

pub const VAR: u64 = 11;

pub const ADD: u64 = 12;

pub const MUL: u64 = 13;

pub const DIV: u64 = 14;

pub const MAX: u64 = 15;

pub const NEG: u64 = 16;

pub const EXP: u64 = 17;

pub const LOG: u64 = 18;

pub const POW: u64 = 19;

// One constructor, with its arguments from the list. A number below them all, which only a call with lent tables can have, is the leaf that is no literal.
pub fn build(op: u64, list: &mut Numbers, lent: &mut Lent) -> Result<u64, Refusal> {
    let a = list.next();
    match op {
        LIT => engine::lit(lent, literal::from_word(a)),
        0..=VAR => engine::var(lent, a),
        ADD => engine::add(lent, a, list.next()),
        MUL => engine::mul(lent, a, list.next()),
        DIV => engine::div(lent, a, list.next()),
        MAX => engine::max(lent, a, list.next()),
        NEG => engine::neg(lent, a),
        EXP => engine::exp(lent, a),
        LOG => engine::log(lent, a),
        _ => engine::pow(lent, a, half_of(list.next())),
    }
}
