// What is only read of an expansion.
ghost use Rattle.std.specs.Prelude.{◌≡◌, Ok, Err};
ghost use Rattle.refusals.specs.Numbers.{numbered};
ghost use Rattle.lent_series.specs.Series.{given};
ghost use Rattle.engine_given.specs.Read.{given_to_read, count_of, coefficients_of};

use lent_series::Series;
use refusals::Refusal;
use taylor::Expansion;

// 1, 2 and 5, then the expansion that is given: the frame of a call that only reads. Why both tables and the count are three parameters stands at `lent::tables`.
fn expansion_given(kinds: &[u8], words: &[u64], count: u64, s: Series) -> Result<Expansion, Refusal>
    ensures { numbered result ≡ given_to_read Err kinds.now words.now count s (Ok (given s)) }
{
    lent::tables(kinds, words, count)?;
    s.nodes_given(count)?;
    s.expansion()
}

// How many coefficients there are: 2^64 - 1 of a constant.
pub fn order(kinds: &[u8], words: &[u64], count: u64, s: Series) -> Result<u64, Refusal>
    ensures { numbered result ≡ count_of kinds.now words.now count s }
{
    let e = expansion_given(kinds, words, count, s)?;
    Ok(e.order())
}

// The expansion of given coefficients.
pub fn from_coefficients(
    kinds: &[u8],
    words: &[u64],
    count: u64,
    s: Series,
) -> Result<Series, Refusal>
    ensures { numbered result ≡ coefficients_of kinds.now words.now count s }
{
    let e = expansion_given(kinds, words, count, s)?;
    Ok(Series::from(e))
}
