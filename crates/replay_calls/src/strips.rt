// Running a strip, with its bytes and a table of values from the list.
use crate::got::{Got, UNLISTED, of_answer};
use crate::values::{ALIKE_MAX, VALUES_MAX};
use number_list::{Numbers, byte_of};

pub const RUN_STRIP: u64 = 50;

// The longest strip of the list.
const STRIP_MAX: usize = 2_048;

// With the first entries of both tables.
fn run_first(strip: &[u8], m: usize, values: &[f64], n: usize) -> Got {
    let strip = strip.get(..m).ok_or(UNLISTED)?;
    let values = values.get(..n).ok_or(UNLISTED)?;
    of_answer(engine_strip::run_strip(strip, values).map(double::bits))
}

pub fn run(op: u64, list: &mut Numbers) -> Got {
    let m = list.next_length();
    let mut strip = [0u8; STRIP_MAX];
    list.next_into(m, &mut strip, byte_of);
    let n = list.next_length();
    if op == RUN_STRIP {
        let mut table = [0.0; VALUES_MAX];
        list.next_into(n, &mut table, double::of_bits);
        return run_first(&strip, m, &table, n);
    }
    let table = [double::of_bits(list.next()); ALIKE_MAX];
    run_first(&strip, m, &table, n)
}
