// What is read of an expansion: a coefficient, a derivative, the order.
use crate::given::next_series;
use lent::Lent;
use number_list::Numbers;
use refusals::Refusal;
use replay_calls::{Got, of_answer};

pub const COEFF: u64 = 32;

// A coefficient or a derivative, which may append nodes.
pub fn indexed(op: u64, list: &mut Numbers, lent: &mut Lent) -> Result<u64, Refusal> {
    let s = next_series(list);
    let index = list.next();
    if op == COEFF {
        return engine_index::coeff(lent, s, index);
    }
    engine_index::derivative(lent, s, index)
}

// `order`, which leaves the pool alone.
pub fn length(list: &mut Numbers, lent: &Lent) -> Got {
    let s = next_series(list);
    of_answer(engine_given::order(lent.kinds, lent.words, *lent.count, s))
}
