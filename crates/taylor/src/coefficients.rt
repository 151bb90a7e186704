// The coefficients of an expansion: 1 to 25 node numbers, coefficient 0 first. Contracts see the list of them.
ghost use Rattle.std.specs.Prelude.{◌≡◌, ◌≤◌, ◌<◌, [], ◌∷◌, ◌++◌, length, drop, take};
ghost use Rattle.taylor.specs.Coefficients.{terms, at};

use std::marker::Model;

// How many coefficients an expansion has at most: those of the orders 0 to 24.
pub const TERMS: usize = 25;

// It is passed by reference, and built by `push`: a copy of 25 entries costs time. No `ArrayVec` of the kit's arrayvec, which may be empty, is no `Copy`, and
// says nothing of what lies past its end: here there is always a first entry, and zeros lie past the last. No crate depends on a library of the kit.
#[derive(Clone, Copy)]
pub struct Coefficients {
    len: u32,
    entries: [u32; TERMS],
}

impl Model for Coefficients {
    ghost use Rattle.std.specs.Prelude.{List, ℕ, take, length};
    ghost use Rattle.std.proofs.Common.{ap, ◌∙◌};
    ghost use Rattle.taylor.specs.Stored.{Stored, array_of};

    ghost Value = { List ℕ };

    ghost view = { λ c. take c.len c.entries };

    ghost invariant = { λ c. Stored c.len c.entries };

    ghost inverse = { λ cs. record { len = length cs; entries = array_of cs } };

    ghost inverse_ok = { λ c h. ap (λ n. record { len = n; entries = array_of (take c.len c.entries) }) h.long ∙ ap (λ es. record { len = c.len; entries = es }) h.whole };
}

impl Coefficients {
    // The list of one coefficient.
    pub fn one(c: u32) -> Coefficients
        ensures { result ≡ c ∷ [] }
    {
        let mut entries = [0; TERMS];
        entries[0] = c;
        Coefficients { len: 1, entries }
    }

    // The first entries of an array.
    pub fn first_of(array: &[u32; TERMS], len: u32) -> Coefficients
        requires least { 1 ≤ len }
        requires most { len ≤ terms }
        ensures { result ≡ take len array.now }
    {
        let mut entries = [0; TERMS];
        let end = len as usize;
        entries[..end].copy_from_slice(&array[..end]);
        Coefficients { len, entries }
    }

    // How many there are.
    pub fn len(&self) -> u32
        ensures is { result ≡ length self.now }
        ensures least { 1 ≤ result }
        ensures most { result ≤ terms }
    {
        self.len
    }

    // Coefficient k; 0 past the end.
    pub fn at(&self, k: u32) -> u32
        ensures { result ≡ at self.now k }
    {
        self.entries.get(k as usize).copied().unwrap_or(0)
    }

    // One coefficient more.
    pub fn push(&mut self, c: u32)
        requires { length self.old < terms }
        ensures { self.new ≡ self.old ++ (c ∷ []) }
    {
        self.entries[self.len as usize] = c;
        self.len += 1;
    }

    // Coefficient 0.
    pub fn first(&self) -> u32
        ensures { self.now ≡ result ∷ drop 1 self.now }
    {
        self.entries[0]
    }

    // The list with another coefficient 0.
    pub fn with_first(&self, c: u32) -> Coefficients
        ensures { result ≡ c ∷ drop 1 self.now }
    {
        let mut entries = self.entries;
        entries[0] = c;
        Coefficients {
            len: self.len,
            entries,
        }
    }
}
