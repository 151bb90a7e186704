// What is asked of one expansion: an entry, its length, and the expansion of given coefficients.
ghost use Rattle.std.specs.Prelude.{◌≡◌};
ghost use Rattle.lent.specs.Call.{on_pool};
ghost use Rattle.engine_index.specs.Indices.{coeff_call, derivative_call};
ghost use Rattle.engine_given.specs.Read.{count_of, coefficients_of};
ghost use Rattle.c_answers.specs.Interface.{returned_in_c, in_c, value_in_c};
ghost use Rattle.c_answers.specs.Expansions.{series, count_in_c, outcome_returned_in_c, outcome_in_c};

use c_answers::{answered, outcome_answered};
use lent::Lent;
use lent_series::Series;
use taylor::TERMS;

// Coefficient `index`.
#[unsafe(no_mangle)]
pub extern "C" fn bunlayog_taylor_coeff(
    kinds: &mut [u8],
    words: &mut [u64],
    count: &mut u64,
    order: u64,
    coeffs: &[u64; TERMS],
    index: u64,
    node: &mut u64,
) -> u32
    ensures { returned_in_c result kinds.new words.new count.new node.new ≡ in_c node.old (on_pool (coeff_call (series order coeffs.now) index) kinds.old words.old count.old) }
{
    let mut lent = Lent::new(kinds, words, count);
    let s = Series::new(order, coeffs);
    answered(engine_index::coeff(&mut lent, s, index), node)
}

// The derivative of order `index`.
#[unsafe(no_mangle)]
pub extern "C" fn bunlayog_taylor_derivative(
    kinds: &mut [u8],
    words: &mut [u64],
    count: &mut u64,
    order: u64,
    coeffs: &[u64; TERMS],
    index: u64,
    node: &mut u64,
) -> u32
    ensures { returned_in_c result kinds.new words.new count.new node.new ≡ in_c node.old (on_pool (derivative_call (series order coeffs.now) index) kinds.old words.old count.old) }
{
    let mut lent = Lent::new(kinds, words, count);
    let s = Series::new(order, coeffs);
    answered(engine_index::derivative(&mut lent, s, index), node)
}

// How many coefficients there are.
#[unsafe(no_mangle)]
pub extern "C" fn bunlayog_taylor_order(
    kinds: &[u8],
    words: &[u64],
    count: u64,
    order: u64,
    coeffs: &[u64; TERMS],
    order_out: &mut u64,
) -> u32
    ensures { value_in_c result order_out.new ≡ count_in_c order_out.old (count_of kinds.now words.now count (series order coeffs.now)) }
{
    let s = Series::new(order, coeffs);
    answered(engine_given::order(kinds, words, count, s), order_out)
}

// The expansion of given coefficients.
#[unsafe(no_mangle)]
pub extern "C" fn bunlayog_taylor_from_coefficients(
    kinds: &[u8],
    words: &[u64],
    count: u64,
    order: u64,
    coeffs: &[u64; TERMS],
    order_out: &mut u64,
    coeffs_out: &mut [u64; TERMS],
) -> u32
    ensures { outcome_returned_in_c result order_out.new coeffs_out.new ≡ outcome_in_c order_out.old coeffs_out.old (coefficients_of kinds.now words.now count (series order coeffs.now)) }
{
    let s = Series::new(order, coeffs);
    outcome_answered(
        engine_given::from_coefficients(kinds, words, count, s),
        order_out,
        coeffs_out,
    )
}
