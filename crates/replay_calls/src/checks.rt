// The rules of the pool as a call.
use lent::Lent;
use number_list::Numbers;

// Whether the tables and the count keep the rules: the refusal number against the list's, which is 0 where they do.
pub fn check_is_right(list: &mut Numbers, lent: &Lent) -> bool {
    let number = match lent::tables(lent.kinds, lent.words, *lent.count) {
        Ok(_) => 0,
        Err(refusal) => u64::from(refusal.number()),
    };
    number == list.next()
}
