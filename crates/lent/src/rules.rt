// The rules of the pool, tested on the lent tables where they stand.
ghost use Rattle.std.specs.Prelude.{◌≡◌, get_or, ◌≤◌, eqb};
ghost use Rattle.pool.specs.Pool.{limit, entry_keeps, each};
ghost use Rattle.pool.specs.Rows.{row_numbers};
ghost use Rattle.lent.specs.Lent.{zero_at, rules_hold};

use pool::{LIMIT, ROWS, TABLE, Tables, keeps_at};

// The entries below the count are nodes, their parts smaller than their own numbers.
#[tactic(auto, using(constructor_laws::proofs::Rules::entry_before, crate::proofs::Each::each_none, crate::proofs::Each::each_more))]
fn nodes_keep(table: &[u64; ROWS], tables: Tables<'_>, count: usize) -> bool
    requires count_le_limit { count ≤ limit }
    requires table_value { table.now ≡ row_numbers }
    ensures { result ≡ each count (λ i. entry_keeps count i (get_or tables.entry.kinds.now i 0) (get_or tables.entry.words.now i 0)) }
{
    for i in 0..count {
        if !keeps_at(table, i as u32, tables.kinds[i], tables.words[i]) {
            return false;
        }
    }
    true
}

// The kinds from the count on are 0: their bits are gathered from all of them, with no early way out, so that many can be looked at in one step.
// Of kinds and words one generic function would need `|` and a test for 0 of any number type, a trait with laws: longer than this and `word_bits`.
#[tactic(auto, using(crate::proofs::Tested::none_yet, crate::proofs::Tested::one_gathered))]
fn kinds_rest(kinds: &[u8; LIMIT], from: usize) -> bool
    requires { from ≤ limit }
    ensures { result ≡ each limit (zero_at from kinds.now) }
{
    let mut bits = 0u8;
    for i in from..LIMIT {
        bits |= kinds[i];
    }
    bits == 0
}

// How many words are gathered in one go. The compiler makes a loop of so many turns a straight run of instructions. As one loop over all words the test took more
// time, and how much went by where the linker put it (docs/DECISIONS.md).
const BLOCK: usize = 32;

// The bits of all words from one number to another.
#[tactic(auto, using(crate::proofs::Tested::none_yet, crate::proofs::Tested::one_gathered))]
fn word_bits(words: &[u64; LIMIT], from: usize, to: usize) -> u64
    requires from_le_to { from ≤ to }
    requires to_le_limit { to ≤ limit }
    ensures { eqb result 0 ≡ each to (zero_at from words.now) }
{
    let mut bits = 0u64;
    for i in from..to {
        bits |= words[i];
    }
    bits
}

// The words from the count on are 0: those up to a block's start, and then block by block. A block is taken by its numbers, so that the compiler sees how
// many words it has.
#[tactic(auto, using(crate::proofs::Tested::more_gathered))]
fn words_rest(words: &[u64; LIMIT], from: usize) -> bool
    requires { from ≤ limit }
    ensures { result ≡ each limit (zero_at from words.now) }
{
    let first = (from + (BLOCK - 1)) / BLOCK;
    let mut bits = word_bits(words, from, BLOCK * first);
    for block in first..LIMIT / BLOCK {
        bits |= word_bits(words, BLOCK * block, BLOCK * block + BLOCK);
    }
    bits == 0
}

// Whether the tables and the count keep the rules of the pool.
#[tactic(auto, using(crate::proofs::Tested::count_breaks, crate::proofs::Tested::nodes_break, crate::proofs::Tested::kinds_break, crate::proofs::Tested::words_decide))]
pub fn keeps_rules(tables: Tables<'_>, count: u64) -> bool
    ensures { result ≡ rules_hold tables.entry.kinds.now tables.entry.words.now count }
{
    if (LIMIT as u64) < count {
        return false;
    }
    let n = count as usize;
    let table = TABLE;
    nodes_keep(&table, tables, n) && kinds_rest(tables.kinds, n) && words_rest(tables.words, n)
}
