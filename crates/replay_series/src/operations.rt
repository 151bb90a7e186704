// The operations that give an expansion, by the numbers that the list has for them.
use crate::given::next_series;
use lent::Lent;
use lent_series::Series;
use number_list::{Numbers, half_of};
use refusals::Refusal;

pub const VAR: u64 = 30;

pub const EXP: u64 = 35;

pub const LOG: u64 = 36;

pub const NEG: u64 = 37;

pub const POW: u64 = 38;

pub const ADD: u64 = 39;

pub const SUB: u64 = 40;

pub const MUL: u64 = 41;

pub const DIV: u64 = 42;

pub const MAX: u64 = 43;

pub const SUBST: u64 = 44;

pub const COEFFS: u64 = 45;

fn of_one(op: u64, list: &mut Numbers, lent: &mut Lent) -> Result<Series, Refusal> {
    let s = next_series(list);
    match op {
        EXP => engine_series::exp(lent, s),
        LOG => engine_series::log(lent, s),
        POW => engine_series::pow(lent, s, half_of(list.next())),
        _ => engine_series::neg(lent, s),
    }
}

fn of_two(op: u64, list: &mut Numbers, lent: &mut Lent) -> Result<Series, Refusal> {
    let s = next_series(list);
    let t = next_series(list);
    match op {
        ADD => engine_pairs::add(lent, s, t),
        SUB => engine_pairs::sub(lent, s, t),
        MUL => engine_pairs::mul(lent, s, t),
        DIV => engine_pairs::div(lent, s, t),
        MAX => engine_pairs::max(lent, s, t),
        _ => engine_pairs::subst(lent, s, t),
    }
}

fn of_node(list: &mut Numbers, lent: &mut Lent) -> Result<Series, Refusal> {
    let x = list.next();
    let order = list.next();
    engine_given::var(lent, x, order)
}

fn coeffs(list: &mut Numbers, lent: &mut Lent) -> Result<Series, Refusal> {
    let root = list.next();
    let var = list.next();
    let order = list.next();
    engine_expand::coeffs(lent, root, var, order)
}

fn coeffs_at(list: &mut Numbers, lent: &mut Lent) -> Result<Series, Refusal> {
    let root = list.next();
    let var = list.next();
    let point = literal::from_word(list.next());
    let order = list.next();
    engine_expand::coeffs_at(lent, root, var, point, order)
}

// One operation, with its arguments from the list. A number below ADD that is none of them, which the program does not give, is taken for `neg`.
pub fn expanded(op: u64, list: &mut Numbers, lent: &mut Lent) -> Result<Series, Refusal> {
    match op {
        VAR => of_node(list, lent),
        0..=POW => of_one(op, list, lent),
        ADD..=SUBST => of_two(op, list, lent),
        COEFFS => coeffs(list, lent),
        _ => coeffs_at(list, lent),
    }
}
