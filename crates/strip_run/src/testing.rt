// Whether the machine takes a strip: each key is looked at with the number of places that are in use before it.
ghost use Rattle.std.specs.Prelude.{◌≡◌, ◌<◌, false, eqb, length, MatchOption};
ghost use Rattle.key_strip.specs.Machine.{is_strip};
ghost use Rattle.strip_run.specs.Testing.{Testing, TestedTo, one_place_more, one_place_less, literal_tested, exponent_tested};

use crate::operands::{eight_bytes, four_bytes};
use key_strip::PLACES;
use pool::EXPONENT_MIN;

// A key that passes its test: the place after it, and how many of the machine's places are in use then. It does not pass where it is none, a value is missing or
// there is no place.
#[derive(Clone, Copy)]
struct Passed {
    next: usize,
    depth: usize,
}

// A key that pushes.
#[tactic(auto, unfolding(crate::specs::Testing::one_place_more))]
fn one_place_more(depth: usize, next: usize) -> Option<Passed>
    ensures { result ≡ one_place_more depth next }
{
    if depth < PLACES as usize {
        return Some(Passed {
            next,
            depth: depth + 1,
        });
    }
    None
}

// A key that combines.
#[tactic(auto, unfolding(crate::specs::Testing::one_place_less))]
fn one_place_less(depth: usize, next: usize) -> Option<Passed>
    ensures { result ≡ one_place_less depth next }
{
    if depth < 2 {
        return None;
    }
    Some(Passed {
        next,
        depth: depth - 1,
    })
}

// A literal with this word.
#[tactic(auto, unfolding(crate::specs::Testing::literal_tested))]
fn literal_tested(word: u64, depth: usize, next: usize) -> Option<Passed>
    ensures { result ≡ literal_tested word depth next }
{
    if literal::is_literal(literal::from_word(word)) {
        return one_place_more(depth, next);
    }
    None
}

// A key that raises by this exponent.
#[tactic(auto, unfolding(crate::specs::Testing::exponent_tested))]
fn exponent_tested(exponent: u32, depth: usize, next: usize) -> Option<Passed>
    ensures { result ≡ exponent_tested exponent depth next }
{
    if exponent < EXPONENT_MIN {
        return None;
    }
    if depth == 0 {
        return None;
    }
    Some(Passed { next, depth })
}

// The test of the key at a place. What follows a code is looked at only where it is not cut off. A processor foresees one comparison after the other better
// than a jump to one of nine places: so the codes are numbers that are told apart by halves, here and in the run, and no enum that a `match` jumps by. C's `switch`
// takes 1.8 to 3.6 times as long as this test and the run (docs/MEASUREMENTS.md), and in a check of the pool such jumps took four times as long (docs/DECISIONS.md).
// Each code is compared once, and so how many bytes follow it stands in its branch: asking `following` would compare it again.
fn test_key(strip: &[u8], at: usize, depth: usize) -> Option<Passed>
    requires testing { Testing strip.now at depth }
    requires at_in_bounds { at < length strip.now }
    ensures { TestedTo strip.now at result }
{
    let from = at + 1;
    let left = strip.len() - from;
    let code = strip[at];
    if code < 3 {
        if code == 1 {
            if left < 2 {
                return None;
            }
            return one_place_more(depth, from + 2);
        }
        if code == 0 {
            return None;
        }
        if left < 8 {
            return None;
        }
        return literal_tested(eight_bytes(strip, from), depth, from + 8);
    }
    if code < 6 {
        return one_place_less(depth, from);
    }
    if code == 8 {
        if left < 4 {
            return None;
        }
        return exponent_tested(four_bytes(strip, from), depth, from + 4);
    }
    if code == 9 {
        return one_place_less(depth, from);
    }
    None
}

// The test of all keys: the places in use after the last one. Keys have different lengths, and only the test of a code tells how many bytes follow it, so the
// loop goes from place to place: an iterator over keys would look at each code a second time.
#[tactic(auto, using(crate::proofs::KeyTests::testing_starts, crate::proofs::KeyTests::testing_ends))]
fn tested(strip: &[u8]) -> Option<Passed>
    ensures { MatchOption result (is_strip strip.now ≡ false) (λ last. is_strip strip.now ≡ eqb last.depth 1) }
{
    let mut passed = Passed { next: 0, depth: 0 };
    while passed.next < strip.len() {
        passed = test_key(strip, passed.next, passed.depth)?;
    }
    Some(passed)
}

// Whether the machine takes the strip: 28 where it does not.
pub fn is_strip(strip: &[u8]) -> bool
    ensures { result ≡ is_strip strip.now }
{
    tested(strip).is_some_and(|last| last.depth == 1)
}
