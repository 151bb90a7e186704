// Residues of a modulus, which need not be prime: of a literal, sum, product, power, quotient.
#![tactic(auto)]

ghost use Rattle.std.specs.Prelude.{◌≡◌, ◌<◌};
ghost use Rattle.refusals.specs.Numbers.{numbered};
ghost use Rattle.residue.specs.Residue.{Modulus, fixed_modulus, residue, sum_of, product_of, power_of, quotient_of};

use refusals::Refusal;

// The greatest modulus, and the fixed one of document 01.
pub const MODULUS_MAX: u64 = 2_147_483_647;

pub const MODULUS: u64 = MODULUS_MAX;

// The residues of one modulus. A residue itself is a plain number, and each method asks that it is below the modulus: tables and the C interface hold residues as
// numbers of 32 bits, and a type for one with its modulus as a ghost would still ask in each method that two residues have one modulus.
#[derive(Clone, Copy)]
pub struct Residues {
    pub modulus: u64,
    ghost is_modulus: { Modulus modulus },
}

impl Residues {
    pub fn of(modulus: u64) -> Residues
        requires { Modulus modulus }
        ensures { result.modulus ≡ modulus }
    {
        Residues { modulus }
    }

    // The residue of a literal: the remainder that is not negative.
    #[tactic(auto, using(crate::proofs::Remainder::remainder_is))]
    pub fn residue_of(self, z: i64) -> u64
        ensures { result ≡ residue self.modulus z }
    {
        z.rem_euclid(self.modulus as i64) as u64
    }

    pub fn sum(self, a: u64, b: u64) -> u64
        requires a_lt_m { a < self.modulus }
        requires b_lt_m { b < self.modulus }
        ensures { result ≡ sum_of self.modulus a b }
    {
        (a + b) % self.modulus
    }

    pub fn product(self, a: u64, b: u64) -> u64
        requires a_lt_m { a < self.modulus }
        requires b_lt_m { b < self.modulus }
        ensures { result ≡ product_of self.modulus a b }
    {
        a * b % self.modulus
    }

    // Squares and multiplies, the exponent's bits from the lowest. Doubles (`double::pow`) do not square past the highest bit, and expansions (taylor_products)
    // multiply in a pool and may be refused: three powers, with other squares and other answers.
    #[tactic(auto, using(crate::proofs::Squaring::squares_begin, crate::proofs::Squaring::squares_odd, crate::proofs::Squaring::squares_even, crate::proofs::Squaring::squares_end))]
    pub fn power(self, a: u64, e: u32) -> u64
        requires a_lt_m { a < self.modulus }
        ensures { result ≡ power_of self.modulus a e }
    {
        let mut acc = 1;
        let mut b = a;
        let mut n = e;
        // `while`, and no `for`: there is a turn for each bit of the exponent, and no use for a bit's place.
        while n != 0 {
            if n % 2 == 1 {
                acc = self.product(acc, b);
            }
            b = self.product(b, b);
            n = n / 2;
        }
        acc
    }

    // The inverse by Euclid's algorithm: each remainder is a multiple of d, modulo m, and its factor is kept beside it.
    #[tactic(auto, using(crate::proofs::Euclid::euclid_begins, crate::proofs::Euclid::factor_fits, crate::proofs::Euclid::euclid_inverts, crate::proofs::Euclid::euclid_refuses))]
    pub fn inverse(self, d: u64) -> Result<u64, Refusal>
        requires d_lt_m { d < self.modulus }
        ensures { numbered result ≡ quotient_of self.modulus 1 d }
    {
        let m = self.modulus;
        let mut r0 = m;
        let mut r1 = d;
        let mut t0 = 0;
        let mut t1 = 1;
        // `while`, and no `for`: how many remainders there are shows only when one is 0.
        while r1 != 0 {
            let q = r0 / r1;
            let r2 = r0 % r1;
            let t2 = (t0 + (m - q * t1 % m)) % m;
            r0 = r1;
            r1 = r2;
            t0 = t1;
            t1 = t2;
        }
        if r0 == 1 {
            return Ok(t0);
        }
        Err(Refusal::NoInverse)
    }

    #[tactic(auto, using(crate::proofs::Theorems::inverse_below, crate::proofs::Theorems::quotient_by_inverse, crate::proofs::Theorems::no_inverse_no_quotient))]
    pub fn quotient(self, a: u64, d: u64) -> Result<u64, Refusal>
        requires a_lt_m { a < self.modulus }
        requires d_lt_m { d < self.modulus }
        ensures { numbered result ≡ quotient_of self.modulus a d }
    {
        Ok(self.product(a, self.inverse(d)?))
    }
}
