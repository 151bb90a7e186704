// An expansion as a caller has it: its length and an array of node numbers.
ghost use Rattle.std.specs.Prelude.{◌≡◌, true, Ok, Err};
ghost use Rattle.refusals.specs.Refusals.{unknown_node, wrong_order};
ghost use Rattle.refusals.specs.Numbers.{numbered};
ghost use Rattle.refusals.specs.Demand.{demand};
ghost use Rattle.pool.specs.Pool.{limit};
ghost use Rattle.pool.specs.Nodes.{all_below};
ghost use Rattle.lent.specs.Lent.{demanded};
ghost use Rattle.lent_series.specs.Series.{entries, nodes_of, length_ok, given, series_of};

use refusals::Refusal;
use taylor::{Coefficients, Expansion, TERMS};

// The length of a constant.
pub const ENDLESS: u64 = u64::MAX;

// A list of `order` coefficients, or a constant, which stands in coeffs[0] and whose order is ENDLESS: the C interface has expansions so.
#[derive(Clone, Copy)]
pub struct Series {
    pub order: u64,
    pub coeffs: [u64; TERMS],
}

impl Series {
    // What the C interface lends one by one.
    pub fn new(order: u64, coeffs: &[u64; TERMS]) -> Series
        ensures { result ≡ record { order = order; coeffs = coeffs.now } }
    {
        Series {
            order,
            coeffs: *coeffs,
        }
    }

    // How many node numbers are given.
    fn entries(&self) -> usize
        ensures { result ≡ entries self.now }
    {
        if self.order == ENDLESS {
            return 1;
        }
        self.order.min(TERMS as u64) as usize
    }

    // Whether the node numbers given are below the count.
    fn nodes_below(&self, count: u64) -> bool
        ensures { result ≡ all_below count (nodes_of self.now) }
    {
        self.coeffs[..self.entries()].iter().all(|c| *c < count)
    }

    // The node numbers given are below the count, or 2.
    pub fn nodes_given(&self, count: u64) -> Result<(), Refusal>
        ensures { numbered result ≡ demanded (all_below count (nodes_of self.now)) unknown_node }
    {
        lent::demanded(self.nodes_below(count), Refusal::UnknownNode)
    }

    // Whether it is a constant, or a list of 1 to 25 entries.
    pub fn has_length(&self) -> bool
        ensures { result ≡ length_ok self.now }
    {
        self.order == ENDLESS || (self.order >= 1 && self.order <= TERMS as u64)
    }

    // The expansion that is given, a constant or a list of 1 to 25 entries, or 5.
    #[tactic(auto, using(crate::proofs::Numbers::listed))]
    pub fn expansion(&self) -> Result<Expansion, Refusal>
        requires { all_below limit (nodes_of self.now) ≡ true }
        ensures { numbered result ≡ demand Err (length_ok self.now) wrong_order (Ok (given self.now)) }
    {
        if !self.has_length() {
            return Err(Refusal::WrongOrder);
        }
        if self.order == ENDLESS {
            return Ok(Expansion::Constant(self.coeffs[0] as u32));
        }
        // entry by entry: past the list's end there may be any numbers, which need not fit a node number
        let mut entries = [0; TERMS];
        for i in 0..self.order as usize {
            entries[i] = self.coeffs[i] as u32;
        }
        let list = Coefficients::first_of(&entries, self.order as u32);
        Ok(Expansion::Polynomial(list))
    }
}

// An expansion as an answer: zeros stand past the list's end.
impl From<Expansion> for Series {
    ghost from_gives = { λ e s. s ≡ series_of e };

    fn from(e: Expansion) -> Series {
        let mut coeffs = [0; TERMS];
        match e {
            Expansion::Constant(c) => {
                coeffs[0] = c as u64;
                Series {
                    order: ENDLESS,
                    coeffs,
                }
            }
            Expansion::Polynomial(list) => {
                // by numbers: a list of coefficients shows an entry by its number alone
                for k in 0..list.len() {
                    coeffs[k as usize] = list.at(k) as u64;
                }
                Series {
                    order: list.len() as u64,
                    coeffs,
                }
            }
        }
    }
}
