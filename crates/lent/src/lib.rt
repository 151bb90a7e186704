// What a caller lends: both tables of the pool are tested and taken in, and after an accepted call the new entries are put back.
#![tactic(auto)]

ghost use Rattle.std.specs.Prelude.{◌≡◌, true, [], ◌∷◌, leb, length, ◌≤◌, ◌↔◌, OnOk, IfOk, IsSome, IfSome, Ok, Err};
ghost use Rattle.refusals.specs.Refusals.{broken_pool, unknown_node, unknown_variable};
ghost use Rattle.refusals.specs.Numbers.{number, numbered};
ghost use Rattle.pool.specs.Pool.{limit, is_pool, empty};
ghost use Rattle.pool.specs.Made.{made};
ghost use Rattle.pool.specs.Nodes.{all_below, greatest_variable};
ghost use Rattle.constructor_laws.specs.Grown.{SameBut, Grown};
ghost use Rattle.lent.specs.Lent.{demanded, as_demanded};
ghost use Rattle.lent.specs.Call.{lent_pool, lent_pool_to, leaves_of, on_lent, Appended, Called, SameLent};

mod rules;

use pool::{LIMIT, Pool, Tables};
use refusals::Refusal;
use rules::keeps_rules;

// Tables of the right lengths.
fn sized<'a>(kinds: &'a [u8], words: &'a [u64]) -> Option<Tables<'a>>
    ensures lengths { IsSome result ↔ (length kinds.now ≡ limit) × (length words.now ≡ limit) }
    ensures lent_tables { IfSome result (λ tables. (tables.kinds.now ≡ kinds.now) × (tables.words.now ≡ words.now)) }
{
    Some(Tables {
        kinds: kinds.as_array()?,
        words: words.as_array()?,
    })
}

// 1, or both tables as they lie where they are lent, for a call that only reads them: nothing is copied. Such a call has both tables and the count as three
// parameters. `Lent` holds them to be written; a struct that only reads would be made of the three at each call, and taken apart again by the first line of it.
#[tactic(auto, using(crate::proofs::Tested::lengths_break, crate::proofs::Tested::rules_decide))]
pub fn tables<'a>(kinds: &'a [u8], words: &'a [u64], count: u64) -> Result<Tables<'a>, Refusal>
    ensures tested { as_demanded (numbered result) ≡ demanded (is_pool kinds.now words.now count) broken_pool }
    ensures lent_tables { IfOk result (λ tables. (tables.kinds.now ≡ kinds.now) × (tables.words.now ≡ words.now)) }
{
    sized(kinds, words)
        .filter(|tables| keeps_rules(*tables, count))
        .ok_or(Refusal::BrokenPool)
}

// Both tables and the count, lent for a call that appends. It is passed by reference: of one that is passed on by value, a proof knows too little
// afterwards.
#[derive(Drop)]
pub struct Lent<'a> {
    pub kinds: &'a mut [u8],
    pub words: &'a mut [u64],
    pub count: &'a mut u64,
}

impl<'a> Lent<'a> {
    // What the C interface and the programs lend one by one.
    pub fn new(kinds: &'a mut [u8], words: &'a mut [u64], count: &'a mut u64) -> Lent<'a>
        ensures kinds_lent { result.kinds ≡ kinds.entry }
        ensures words_lent { result.words ≡ words.entry }
        ensures count_lent { result.count ≡ count.entry }
    {
        Lent {
            kinds,
            words,
            count,
        }
    }

    // 1, or what is lent as a pool. The entries below the count are copied over tables of zeros, as an empty pool has them, since a pool is 0 from the count on. A
    // test that copies on its way is slower: it stops at the first entry that breaks a rule, and so goes entry by entry through all the zeros.
    #[tactic(auto, using(crate::proofs::Calling::is_met, crate::proofs::Finishing::pool_sized, crate::proofs::Taken::as_many_kinds, crate::proofs::Taken::as_many_words))]
    pub fn take_in(&self, pool: &mut Pool) -> Result<(), Refusal>
        requires kinds_value { pool.old.kinds ≡ empty.kinds }
        requires words_value { pool.old.words ≡ empty.words }
        ensures tested { numbered result ≡ demanded (on_lent is_pool self.now) broken_pool }
        ensures taken { OnOk result (pool.new ≡ on_lent lent_pool self.now) }
    {
        tables(self.kinds, self.words, *self.count)?;
        let n = *self.count as usize;
        put_over(&mut pool.kinds[..n], &self.kinds[..n]);
        put_over(&mut pool.words[..n], &self.words[..n]);
        pool.count = *self.count as u32;
        pool.end = LIMIT as u32;
        Ok(())
    }

    // The entries that work has appended and the new count, put back.
    #[tactic(auto, using(crate::proofs::Finishing::fits_back))]
    pub fn put_back(&mut self, pool: &Pool)
        requires count_value { on_lent is_pool self.old ≡ true }
        requires grown { Grown (on_lent (lent_pool_to pool.now.end) self.old) pool.now }
        ensures same { SameLent self.old self.new }
        ensures kinds_after { self.new.kinds.now ≡ pool.now.kinds }
        ensures words_after { self.new.words.now ≡ pool.now.words }
        ensures count_after { self.new.count.now ≡ pool.now.count }
    {
        let from = *self.count as usize;
        let to = pool.count as usize;
        put_back(self.kinds, self.words, from, to, &pool.kinds, &pool.words);
        *self.count = pool.count as u64;
    }

    // After the work: what an accepted call has appended is put back, a refusal leaves all as it was. `lent_series::finish` does the same for an expansion. `put_back`
    // is what they share: a generic function of the rest would be a third one, which both call and then still make their answer.
    pub fn finish(&mut self, pool: &Pool, res: Result<u32, Refusal>) -> Result<u64, Refusal>
        requires count_value { on_lent is_pool self.old ≡ true }
        requires appended { Appended self.old.kinds.now self.old.words.now self.old.count.now (made res pool.now) }
        ensures { Called (leaves_of Ok Err (made res pool.now)) self.old (numbered result) self.new }
    {
        let node = res?;
        self.put_back(pool);
        Ok(node as u64)
    }
}

// The entries from one number to another, put back where the rest is the same already. Entry by entry: as copies of slices they would need memmove of the C
// library, which the archive does without. By numbers: without them both tables and what is put into them would be four iterators in one loop.
#[tactic(auto, using(crate::proofs::Overwrite::as_long))]
pub fn put_back(
    kinds: &mut [u8],
    words: &mut [u64],
    from: usize,
    to: usize,
    new_kinds: &[u8; LIMIT],
    new_words: &[u64; LIMIT],
)
    requires from_le_to { (from ≤ to) × (to ≤ limit) }
    requires kinds_len { (length kinds.old ≡ limit) × (length words.old ≡ limit) }
    requires same_but { SameBut from to kinds.old new_kinds.now × SameBut from to words.old new_words.now }
    ensures kinds_after { kinds.new ≡ new_kinds.now }
    ensures words_after { words.new ≡ new_words.now }
{
    for i in from..to {
        kinds[i] = new_kinds[i];
        words[i] = new_words[i];
    }
}

// Entries put over as many others. Entry by entry: what is lent stands behind a reference, so the compiler does not see that the two never overlap, and
// `copy_from_slice` would need memmove of the C library, which the archive does without.
fn put_over<T: Copy>(to: &mut [T], from: &[T])
    requires { length to.old ≡ length from.now }
    ensures { to.new ≡ from.now }
{
    for i in 0..from.len() {
        to[i] = from[i];
    }
}

// What must hold, or the refusal.
pub fn demanded(test: bool, refusal: Refusal) -> Result<(), Refusal>
    ensures { numbered result ≡ demanded test (number refusal) }
{
    if test {
        return Ok(());
    }
    Err(refusal)
}

// 2, where a given node number is not below the count.
pub fn one_given(count: u64, node: u64) -> Result<(), Refusal>
    ensures { numbered result ≡ demanded (all_below count (node ∷ [])) unknown_node }
{
    demanded(node < count, Refusal::UnknownNode)
}

// 2, where one of two given node numbers is not below the count.
pub fn both_given(count: u64, lhs: u64, rhs: u64) -> Result<(), Refusal>
    ensures { numbered result ≡ demanded (all_below count (lhs ∷ rhs ∷ [])) unknown_node }
{
    one_given(count, lhs)?;
    one_given(count, rhs)
}

// 3, where a variable number is none.
pub fn variable_given(var: u64) -> Result<(), Refusal>
    ensures { numbered result ≡ demanded (leb var greatest_variable) unknown_variable }
{
    demanded(var <= pool::VARIABLE_MAX, Refusal::UnknownVariable)
}
