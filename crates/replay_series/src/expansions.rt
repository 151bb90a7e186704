// The answers that are expansions, against the list's.
use crate::given::{next_series, same_series};
use crate::operations::expanded;
use lent::Lent;
use lent_series::Series;
use number_list::Numbers;
use refusals::Refusal;
use replay_calls::grow;

// Whether an answer is the list's: the refusal number, or behind a 0 the expansion.
fn is_right(got: Result<Series, Refusal>, number: u64, list: &mut Numbers) -> bool {
    if number == 0 {
        let want = next_series(list);
        return match got {
            Ok(series) => same_series(series, want),
            Err(_) => false,
        };
    }
    match got {
        Ok(_) => false,
        Err(refusal) => u64::from(refusal.number()) == number,
    }
}

// An operation that works on the pool: the list's new entries go to the tables that the engine's are compared with.
pub fn expansion_is_right(op: u64, list: &mut Numbers, lent: &mut Lent, listed: &mut Lent) -> bool {
    let got = expanded(op, list, lent);
    let number = list.next();
    let right = is_right(got, number, list);
    grow(number == 0, list, listed);
    right
}

// `from_coefficients`, which leaves the pool alone.
pub fn list_is_right(list: &mut Numbers, lent: &Lent) -> bool {
    let s = next_series(list);
    let got = engine_given::from_coefficients(lent.kinds, lent.words, *lent.count, s);
    let number = list.next();
    is_right(got, number, list)
}
