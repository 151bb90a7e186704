// The operations of the list that are no calls: they put entries and counts as they are, into the engine's tables and into those beside them, or say what
// the next call appends; and words for the reader.
use lent::Lent;
use number_list::Numbers;
use pool::LIMIT;
use replay_calls::{grow, set};
use std::num::wrapping_add_u64;

pub const CLEAR: u64 = 0;

pub const PUT: u64 = 1;

pub const COUNT: u64 = 2;

pub const FILL: u64 = 3;

pub const RUN: u64 = 4;

pub const FIRST: u64 = 5;

pub const APPENDED: u64 = 6;

pub const APPENDED_RUN: u64 = 7;

// The tables have one entry more than a pool, so that too long ones can be lent.
pub const TABLE: usize = LIMIT + 1;

// Entries from one number to another, of one kind, their words a step apart.
fn fill(lent: &mut Lent, from: u64, to: u64, kind: u64, first: u64, step: u64) {
    let mut word = first;
    for i in from..to {
        set(lent, i, kind, word);
        word = wrapping_add_u64(word, step);
    }
}

// The step is 0 where all words are alike.
fn fill_both(op: u64, list: &mut Numbers, lent: &mut Lent, listed: &mut Lent) {
    let from = list.next();
    let to = list.next();
    let kind = list.next();
    let word = list.next();
    let step = if op == RUN { list.next() } else { 0 };
    if (TABLE as u64) < to {
        return;
    }
    fill(lent, from, to, kind, word, step);
    fill(listed, from, to, kind, word, step);
}

fn put_both(list: &mut Numbers, lent: &mut Lent, listed: &mut Lent) {
    let i = list.next();
    let kind = list.next();
    let word = list.next();
    set(lent, i, kind, word);
    set(listed, i, kind, word);
}

// The entries that the next call appends, as a run up to a number: they go to the tables that the engine's are compared with.
fn append_run(list: &mut Numbers, listed: &mut Lent) {
    let to = list.next();
    let kind = list.next();
    let word = list.next();
    let step = list.next();
    if (LIMIT as u64) < to {
        return;
    }
    let from = *listed.count;
    fill(listed, from, to, kind, word, step);
    *listed.count = to;
}

// Only the first entries stay.
fn cut(n: u64, lent: &mut Lent) {
    fill(lent, n, TABLE as u64, 0, 0, 0);
    *lent.count = n;
}

fn cut_both(n: u64, lent: &mut Lent, listed: &mut Lent) {
    cut(n, lent);
    cut(n, listed);
}

// One of them; a cleared pool has the count 0. Words are passed over up to the line's end.
pub fn set_both(op: u64, list: &mut Numbers, lent: &mut Lent, listed: &mut Lent) {
    match op {
        CLEAR => cut_both(0, lent, listed),
        PUT => put_both(list, lent, listed),
        COUNT => {
            let n = list.next();
            *lent.count = n;
            *listed.count = n;
        }
        FILL | RUN => fill_both(op, list, lent, listed),
        FIRST => cut_both(list.next(), lent, listed),
        APPENDED => grow(true, list, listed),
        APPENDED_RUN => append_run(list, listed),
        _ => list.skip_line(),
    }
}
