// Expansions in the list: the order, how many entries are written, and these. The rest of the 25 are 0.
ghost use Rattle.std.specs.Prelude.{◌≡◌, ◌↔◌, IsTrue};

use lent_series::Series;
use number_list::Numbers;
use taylor::TERMS;

pub fn next_series(list: &mut Numbers) -> Series {
    let order = list.next();
    let written = list.next_length();
    let mut coeffs = [0u64; TERMS];
    list.next_into(written, &mut coeffs, |n| n);
    Series { order, coeffs }
}

// Whether two expansions are equal in the order and in all entries.
pub fn same_series(s: Series, t: Series) -> bool
    ensures { IsTrue result ↔ ((s.order ≡ t.order) × (s.coeffs ≡ t.coeffs)) }
{
    s.order == t.order && s.coeffs == t.coeffs
}
