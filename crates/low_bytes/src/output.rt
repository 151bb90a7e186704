// The output: bytes are written from a place on. What lies past the end is counted and not written, and the count stops past the longest text.
ghost use Rattle.std.specs.Prelude.{◌≡◌, ◌≤◌, ◌<◌, ◌↔◌, IsTrue, [], ◌∷◌};
ghost use Rattle.low_bytes.specs.Output.{Wrote, longest_text, past_longest};

use std::marker::Model;

// The most bytes that a text has.
pub const TEXT_MAX: usize = 65_535;

// Where the next byte of a text goes: how many bytes stand before it. A contract sees that number; it is one past the longest text at most. The output stays a
// parameter beside it: with both in one struct behind a reference the text of 100 terms took a fifth more instructions, 57,841 and not 47,611.
#[derive(Clone, Copy)]
pub struct Place {
    at: usize,
}

impl Model for Place {
    ghost use Rattle.std.specs.Prelude.{ℕ, ◌≤◌};
    ghost use Rattle.low_bytes.specs.Output.{past_longest};

    ghost Value = { ℕ };

    ghost view = { λ p. p.at };

    ghost invariant = { λ p. p.at ≤ past_longest };

    ghost inverse = { λ n. record { at = n } };
}

impl Place {
    // The front of an output.
    pub fn front() -> Place
        ensures { result ≡ 0 }
    {
        Place { at: 0 }
    }

    // The place before which so many bytes stand: a caller may begin at any that is counted.
    pub fn at(number: usize) -> Place
        requires { number ≤ past_longest }
        ensures { result ≡ number }
    {
        Place { at: number }
    }

    // How many bytes stand before it.
    pub fn number(self) -> usize
        ensures value { result ≡ self }
        ensures countable { result ≤ past_longest }
    {
        self.at
    }

    // Whether the text before it is too long already: what else is written is not even counted.
    pub fn is_past(self) -> bool
        ensures { IsTrue result ↔ (longest_text < self) }
    {
        TEXT_MAX < self.at
    }
}

// One byte; the place after it is the answer, here and below.
#[tactic(auto, using(crate::proofs::Writing::past_longest_lem, crate::proofs::Writing::byte_written, crate::proofs::Writing::byte_counted))]
pub fn put(out: &mut [u8], at: Place, byte: u8) -> Place
    ensures { Wrote at out.old (byte ∷ []) result out.new }
{
    if at.is_past() {
        return at;
    }
    let i = at.number();
    // No `if let Some(place) = out.get_mut(i)`: it is as long, and the check does not find its proof.
    if i < out.len() {
        out[i] = byte;
    }
    Place { at: i + 1 }
}

// Bytes one by one.
#[tactic(auto, using(crate::proofs::Writing::none_written, crate::proofs::Writing::all_bytes))]
pub fn write(out: &mut [u8], at: Place, bytes: &[u8]) -> Place
    ensures { Wrote at out.old bytes.now result out.new }
{
    let mut to = at;
    for byte in bytes {
        to = put(out, to, *byte);
    }
    to
}
