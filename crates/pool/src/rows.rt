// The rules for one entry by a table, with four numbers to a kind: no jump goes by which kind it is. A processor foresees such jumps badly where kinds are mixed.
ghost use Rattle.std.specs.Prelude.{◌≡◌};
ghost use Rattle.pool.specs.Nodes.{decode, may_stand_at};
ghost use Rattle.pool.specs.Rows.{row_numbers};

use crate::node::{EXPONENT_MIN, HALF, VARIABLE_MAX};
use literal::LITERAL_MAX;
use std::num::wrapping_add_u64;

// The kinds from 0 on, and four numbers for each.
pub const KINDS: usize = 10;

pub const ROWS: usize = 4 * KINDS;

const WORD_MAX: u64 = u64::MAX;

// What the exponents that are too small come to in a word.
const SMALL_POWERS: u64 = HALF * EXPONENT_MIN as u64;

// For each kind: what is added to the word, the greatest sum that is allowed, and what is added to the node's own number before the low and the high half
// of the word are compared with it. Kind 0 is no node's: the one word that passes its first comparison has a low half that is below no number.
pub const TABLE: [u64; ROWS] = [
    // 0: no node
    1,
    0,
    0,
    0,
    // 1: Variable
    0,
    VARIABLE_MAX,
    HALF,
    HALF,
    // 2: Lit
    LITERAL_MAX,
    2 * LITERAL_MAX,
    HALF,
    HALF,
    // 3: Add
    0,
    WORD_MAX,
    0,
    0,
    // 4: Mul
    0,
    WORD_MAX,
    0,
    0,
    // 5: Div
    0,
    WORD_MAX,
    0,
    0,
    // 6: Exp
    0,
    HALF - 1,
    0,
    HALF,
    // 7: Log
    0,
    HALF - 1,
    0,
    HALF,
    // 8: Pow
    WORD_MAX - SMALL_POWERS + 1,
    WORD_MAX - SMALL_POWERS,
    0,
    HALF,
    // 9: Max
    0,
    WORD_MAX,
    0,
    0,
];

// Whether a kind and a word are a node that may stand at number i. The table is lent, since one that is a constant is made anew wherever it is read.
pub fn keeps_at(table: &[u64; ROWS], i: u32, kind: u8, word: u64) -> bool
    requires { table.now ≡ row_numbers }
    ensures { result ≡ may_stand_at i (decode kind word) }
{
    let k = kind as usize;
    if KINDS <= k {
        return false;
    }
    let row = 4 * k;
    let own = i as u64;
    let fits = wrapping_add_u64(word, table[row]) <= table[row + 1];
    let low = word % HALF < table[row + 2] + own;
    let high = word / HALF < table[row + 3] + own;
    fits & low & high
}
