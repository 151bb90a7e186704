// The calls that work on the pool and are no constructors: substitution, derivation, and reading a file.
use crate::got::{Got, UNLISTED, of_answer};
use lent::Lent;
use number_list::{Numbers, byte_of};
use refusals::Refusal;

pub const SUBSTITUTE: u64 = 20;

pub const DERIVE: u64 = 21;

// The longest file of the list.
const FILE_MAX: usize = 400;

fn substitute(list: &mut Numbers, lent: &mut Lent) -> Result<u64, Refusal> {
    let root = list.next();
    let var = list.next();
    let value = list.next();
    engine_walk::substitute_var(lent, root, var, value)
}

fn derive(list: &mut Numbers, lent: &mut Lent) -> Result<u64, Refusal> {
    let root = list.next();
    let var = list.next();
    engine_walk::derive(lent, root, var)
}

// The first bytes of a table as a file.
fn read(list: &mut Numbers, lent: &mut Lent) -> Got {
    let length = list.next_length();
    let mut file = [0u8; FILE_MAX];
    list.next_into(length, &mut file, byte_of);
    let bytes = file.get(..length).ok_or(UNLISTED)?;
    of_answer(engine_file::read(lent, bytes))
}

pub fn walk(op: u64, list: &mut Numbers, lent: &mut Lent) -> Got {
    match op {
        SUBSTITUTE => of_answer(substitute(list, lent)),
        DERIVE => of_answer(derive(list, lent)),
        _ => read(list, lent),
    }
}
