// The refusals and their numbers. The names are those of specs/Refusals.antt, where the words of the papers for each stand.
#![tactic(auto)]

ghost use Rattle.std.specs.Prelude.{◌≡◌, Some};
ghost use Rattle.refusals.specs.Numbers.{number};
ghost use Rattle.refusals.specs.Shown.{shown};

use std::fmt;

#[cfg(test)]
mod tests;

// Why a call is refused, with the number that callers get.
#[derive(Clone, Copy, Debug, PartialEq, Eq)]
pub enum Refusal {
    BrokenPool = 1,
    UnknownNode = 2,
    UnknownVariable = 3,
    NotLiteral = 4,
    WrongOrder = 5,
    WrongValues = 6,
    WrongLength = 7,
    WrongEntry = 8,
    WrongSequence = 9,
    MaxReached = 10,
    NoExpOrLog = 11,
    OutOfRange = 12,
    ExponentTooLarge = 13,
    TooDeep = 14,
    NoValue = 15,
    NotEvaluated = 16,
    NoInverse = 17,
    PoolFull = 18,
    NoRoom = 19,
    TooManyPlaces = 27,
    WrongStrip = 28,
}

impl Refusal {
    // The number that callers get.
    pub fn number(self) -> u32
        ensures { result ≡ number self }
    {
        self as u32
    }
}

impl From<Refusal> for u32 {
    ghost from_gives = { λ refusal k. k ≡ number refusal };

    fn from(refusal: Refusal) -> u32 {
        refusal.number()
    }
}

// For callers that print a refusal by std. No program does: their lines are made of its number.
impl fmt::Display for Refusal {
    ghost output = { λ refusal. Some (shown refusal) };

    fn fmt<W: fmt::Write>(&self, f: &mut fmt::Formatter<W>) -> fmt::Result {
        write!(f, "refusal {}", self.number())
    }
}
