// The pool as it should be: beside the engine's tables stand two of our own, in which the list's entries are put.
ghost use Rattle.std.specs.Prelude.{◌≡◌, ◌↔◌, IsTrue};

use lent::Lent;
use number_list::{Numbers, byte_of};
use pool::LIMIT;
use std::num::wrapping_add_u64;

// An entry as it is, by no constructor. What finds no place is passed over.
pub fn set(lent: &mut Lent, i: u64, kind: u64, word: u64) {
    let at = i as usize;
    if let Some(place) = lent.kinds.get_mut(at) {
        *place = byte_of(kind);
    }
    if let Some(place) = lent.words.get_mut(at) {
        *place = word;
    }
}

// The entries that the list says an accepted call appended: how many, and then the kind and the word of each. A refused call appends none.
pub fn grow(accepted: bool, list: &mut Numbers, lent: &mut Lent) {
    if !accepted {
        return;
    }
    let new = list.next();
    if (LIMIT as u64) < new {
        return;
    }
    for _ in 0..new {
        let kind = list.next();
        let word = list.next();
        let at = *lent.count;
        set(lent, at, kind, word);
        *lent.count = wrapping_add_u64(at, 1);
    }
}

// Whether two pools are equal in every entry of both tables and in the count.
pub fn same_pools(a: &Lent, b: &Lent) -> bool
    ensures { IsTrue result ↔ ((a.now.count.now ≡ b.now.count.now) × (a.now.kinds.now ≡ b.now.kinds.now) × (a.now.words.now ≡ b.now.words.now)) }
{
    *a.count == *b.count && *a.kinds == *b.kinds && *a.words == *b.words
}
