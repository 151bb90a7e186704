// Calls by what they answer.
use lent::Lent;
use number_list::Numbers;
use replay_calls::{Got, expected, grow, of_answer};

const FIRST_WALK: u64 = 20;

const FIRST_EXPANSION: u64 = 30;

const RUN_STRIP: u64 = 50;

fn node(op: u64, list: &mut Numbers, lent: &mut Lent) -> Got {
    if op < FIRST_WALK {
        return of_answer(replay_calls::build(op, list, lent));
    }
    if op < FIRST_EXPANSION {
        return replay_calls::walk(op, list, lent);
    }
    of_answer(replay_series::indexed(op, list, lent))
}

// A call that gives a node: the list's new entries go to the tables that the engine's are compared with.
pub fn node_is_right(op: u64, list: &mut Numbers, lent: &mut Lent, listed: &mut Lent) -> bool {
    let got = node(op, list, lent);
    let want = expected(list);
    grow(want.is_ok(), list, listed);
    got == want
}

fn value(op: u64, list: &mut Numbers, lent: &Lent) -> Got {
    if op < FIRST_EXPANSION {
        return replay_calls::value(op, list, lent);
    }
    if RUN_STRIP <= op {
        return replay_calls::run(op, list);
    }
    replay_series::length(list, lent)
}

// A call that gives bits, a residue or a length.
pub fn value_is_right(op: u64, list: &mut Numbers, lent: &Lent) -> bool {
    let got = value(op, list, lent);
    got == expected(list)
}
