// Numbers and variables as text, byte by byte: the definitions of specs/ say which bytes, where std's Display of a number says them by std's own; and there is no heap for `format!`.
#![tactic(auto)]

ghost use Rattle.std.specs.Prelude.{◌≡◌, [], ◌∷◌, ◌+◌, ◌<◌, ◌≤◌, length};
ghost use Rattle.text.specs.Text.{digit, decimal, signed_decimal, display, letters, letter_a, room};

use std::marker::Model;

// Room for every text: the longest, `x_` and 20 digits, has 22 bytes.
pub const ROOM: usize = 24;

// How many variables have a letter for a name.
pub const LETTERS: u64 = 26;

// A short text: its bytes stand at the end of the array, from start on, since digits are found from the last to the first; the kit's ArrayString grows at its end.
// A contract sees the bytes alone.
#[derive(Clone, Copy)]
pub struct Text {
    bytes: [u8; ROOM],
    start: usize,
}

impl Model for Text {
    ghost use Rattle.std.specs.Prelude.{ℕ, List, ◌-◌, length, drop};
    ghost use Rattle.std.proofs.Common.{ap, ◌∙◌};
    ghost use Rattle.text.specs.Text.{room};
    ghost use Rattle.text.specs.Stored.{Stored, array_of};

    ghost Value = { List ℕ };

    ghost view = { λ t. drop t.start t.bytes };

    ghost invariant = { λ t. Stored t.start t.bytes };

    ghost inverse = { λ t. record { bytes = array_of t; start = room - length t } };

    ghost inverse_ok = { λ t h. ap (λ bs. record { bytes = bs; start = room - length (drop t.start t.bytes) }) h.whole ∙ ap (λ n. record { bytes = t.bytes; start = n }) h.from };
}

impl Text {
    pub fn as_bytes(&self) -> &[u8]
        ensures value { result.now ≡ self.now }
        ensures short { length result.now ≤ room }
    {
        &self.bytes[self.start..]
    }

    fn of_byte(byte: u8) -> Text
        ensures { result ≡ byte ∷ [] }
    {
        let mut bytes = [0u8; ROOM];
        bytes[ROOM - 1] = byte;
        Text {
            bytes,
            start: ROOM - 1,
        }
    }

    // One byte more in front.
    fn put_in_front(&mut self, byte: u8)
        requires { length self.old < room }
        ensures { self.new ≡ byte ∷ self.old }
    {
        self.start -= 1;
        self.bytes[self.start] = byte;
    }

    fn prefixed(mut self, byte: u8) -> Text
        requires { length self < room }
        ensures { result ≡ byte ∷ self }
    {
        self.put_in_front(byte);
        self
    }
}

// The byte of a digit.
fn digit(d: u64) -> u8
    requires { d < 10 }
    ensures { result ≡ digit d }
{
    b'0' + d as u8
}

// The decimal digits, written from the last to the first, each in its place: `text = text.prefixed(..)` moved the array for each and took 3.7 times as long.
#[tactic(auto, using(crate::proofs::Digits::at_first, crate::proofs::Digits::after_a_turn))]
pub fn decimal_text(n: u64) -> Text
    ensures { result ≡ decimal n }
{
    let mut text = Text::of_byte(digit(n % 10));
    let mut rest = n;
    // `while`, and no `for`: how many digits there are shows only at the last.
    while 10 <= rest {
        rest = rest / 10;
        text.put_in_front(digit(rest % 10));
    }
    text
}

// A literal as text, for callers that want one, as the program `numbers`: printing writes literals to its output with no text between.
#[tactic(auto, unfolding(crate::specs::Text::signed_decimal), using(crate::proofs::Digits::decimal_is_short))]
pub fn signed_text(z: i64) -> Text
    ensures { result ≡ signed_decimal z }
{
    if z < 0 {
        return decimal_text(literal::size(z)).prefixed(b'-');
    }
    decimal_text(literal::size(z))
}

// The letter that a variable has for a name.
pub fn letter(v: u64) -> u8
    requires { v < letters }
    ensures { result ≡ letter_a + v }
{
    b'a' + v as u8
}

// `Var`'s Display.
#[tactic(auto, unfolding(crate::specs::Text::display), using(crate::proofs::Digits::decimal_is_short))]
pub fn variable_text(v: u64) -> Text
    ensures { result ≡ display v }
{
    if v < LETTERS {
        return Text::of_byte(letter(v));
    }
    decimal_text(v).prefixed(b'_').prefixed(b'x')
}
