// An expansion by value.
ghost use Rattle.std.specs.Prelude.{◌≡◌};
ghost use Rattle.taylor.specs.Expansion.{order};

use crate::coefficients::Coefficients;

// A constant, which is a node number, or a list of coefficients. Operations take it by reference: a copy of 25 entries costs time. It is copied where one value
// becomes another (a power of exponent 1, the answer of a walk).
#[derive(Clone, Copy)]
pub enum Expansion {
    Constant(u32),
    Polynomial(Coefficients),
}

// What `order` answers for a constant. It is no Option: the source's `order` answers `usize::MAX` here.
const ENDLESS: u64 = u64::MAX;

impl Expansion {
    // How many coefficients there are; a constant has no end of them.
    pub fn order(&self) -> u64
        ensures { result ≡ order self.now }
    {
        match self {
            Expansion::Constant(_) => ENDLESS,
            Expansion::Polynomial(list) => list.len() as u64,
        }
    }
}
