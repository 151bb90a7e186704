// A list of numbers in a text: what the program `replay` reads. Each number is a run of digits; what stands between them is for the reader of the text.
#![tactic(auto)]

ghost use Rattle.std.specs.Prelude.{◌≡◌, ◌≤◌, true, false, not, cond, leb, ltb, eqb, min, length, position};
ghost use Rattle.std.specs.List.{position_or_len};
ghost use Rattle.number_list.specs.Numbers.{belongs_to, run, value, next_number, behind_number, behind_numbers, from_line_end, longest, Reads};

// No table of a list is longer.
const LENGTH_MAX: usize = 65_537;

// The place of the first byte that is no digit, or of the first that is one.
fn end_of(bytes: &[u8], digits: bool) -> Option<usize>
    ensures { result ≡ position (λ b. not (belongs_to digits b)) bytes.now }
{
    bytes
        .iter()
        .position(|byte| byte.is_ascii_digit() != digits)
}

// How many bytes at the front are digits, or are none.
#[tactic(auto, using(crate::proofs::Runs::run_ends, crate::proofs::Runs::or_len, crate::proofs::Runs::within))]
fn run_of(bytes: &[u8], digits: bool) -> usize
    ensures value { result ≡ run digits bytes.now }
    ensures within { result ≤ length bytes.now }
{
    end_of(bytes, digits).unwrap_or(bytes.len())
}

// The place of the first line end.
fn line_end(bytes: &[u8]) -> Option<usize>
    ensures { result ≡ position (λ b. eqb b 10) bytes.now }
{
    bytes.iter().position(|byte| *byte == b'\n')
}

// How many bytes the first line has, without its end.
#[tactic(auto, using(crate::proofs::Runs::or_len, crate::proofs::Runs::within))]
fn line_length(bytes: &[u8]) -> usize
    ensures value { result ≡ position_or_len (λ b. eqb b 10) bytes.now }
    ensures within { result ≤ length bytes.now }
{
    line_end(bytes).unwrap_or(bytes.len())
}

// The value of the digits at the front, where it has 64 bits; a greater one is the greatest.
#[tactic(auto, using(crate::proofs::Values::starts, crate::proofs::Values::turn, crate::proofs::Values::stops))]
fn value(bytes: &[u8]) -> u64
    ensures { Reads result (value 0 bytes.now) }
{
    let mut n: u64 = 0;
    for byte in bytes {
        if !byte.is_ascii_digit() {
            return n;
        }
        let digit = u64::from(*byte - b'0');
        n = n.saturating_mul(10).saturating_add(digit);
    }
    n
}

// What is left of a text whose numbers are read one after another.
#[derive(Clone, Copy)]
pub struct Numbers<'a> {
    rest: &'a [u8],
}

impl<'a> Numbers<'a> {
    // The numbers of a text, from its first byte on.
    pub fn of(text: &'a [u8]) -> Numbers<'a>
        ensures { result.rest.now ≡ text.now }
    {
        Numbers { rest: text }
    }

    // The next number; 0 where there is none.
    pub fn next(&mut self) -> u64
        ensures reads { Reads result (next_number self.old.rest.now) }
        ensures rest { self.new.rest.now ≡ behind_number self.old.rest.now }
    {
        let (_, number) = self.rest.split_at(run_of(self.rest, false));
        let (_, behind) = number.split_at(run_of(number, true));
        self.rest = behind;
        value(number)
    }

    // What is left of the text, from behind the last number on.
    pub fn rest(&self) -> &'a [u8]
        ensures { result.now ≡ self.now.rest.now }
    {
        &self.rest[..]
    }

    // Whether there is no further number.
    pub fn is_at_end(&self) -> bool
        ensures { result ≡ leb (length self.now.rest.now) (run false self.now.rest.now) }
    {
        self.rest.len() <= run_of(self.rest, false)
    }

    // Passes over what is left of the line.
    pub fn skip_line(&mut self)
        ensures { self.new.rest.now ≡ from_line_end self.old.rest.now }
    {
        self.rest = &self.rest[line_length(self.rest)..];
    }

    // The next number as a length.
    pub fn next_length(&mut self) -> usize
        ensures value { result ≡ min (next_number self.old.rest.now) longest }
        ensures rest { self.new.rest.now ≡ behind_number self.old.rest.now }
    {
        length_of(self.next())
    }

    // As many of the next numbers as said, each turned into a table's entry. What finds no place in the table is passed over.
    #[tactic(auto, unfolding(crate::specs::Numbers::behind_numbers))]
    pub fn next_into<T: Copy, F: Fn(u64) -> T>(&mut self, n: usize, out: &mut [T], entry: F)
        requires { F.IsAlwaysCallable entry }
        ensures { self.new.rest.now ≡ behind_numbers n self.old.rest.now }
    {
        for i in 0..n {
            let x = entry(self.next());
            if let Some(place) = out.get_mut(i) {
                *place = x;
            }
        }
    }
}

// A length, cut off above all tables, so that a wrong list takes no more turns than a right one.
pub fn length_of(n: u64) -> usize
    ensures { result ≡ min n longest }
{
    n.min(LENGTH_MAX as u64) as usize
}

// A number as an entry of a table of bytes; 0 where it is none.
pub fn byte_of(n: u64) -> u8
    ensures { result ≡ cond (ltb n 256) n 0 }
{
    u8::try_from(n).unwrap_or(0)
}

// A number as one of 32 bits, cut off at the greatest.
pub fn half_of(n: u64) -> u32
    ensures { result ≡ min n u32.MAX }
{
    u32::try_from(n).unwrap_or(u32::MAX)
}
