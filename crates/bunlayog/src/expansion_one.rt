// The operations on one expansion as C functions.
ghost use Rattle.std.specs.Prelude.{◌≡◌};
ghost use Rattle.lent_series.specs.Call.{series_on_pool};
ghost use Rattle.engine_series.specs.Operations.{neg_call, exp_call, log_call, pow_call};
ghost use Rattle.engine_given.specs.Variable.{var_call};
ghost use Rattle.c_answers.specs.Expansions.{series, series_returned_in_c, series_in_c};

use c_answers::outcome_answered;
use lent::Lent;
use lent_series::Series;
use taylor::TERMS;

// -e
#[unsafe(no_mangle)]
pub extern "C" fn bunlayog_taylor_neg(
    kinds: &mut [u8],
    words: &mut [u64],
    count: &mut u64,
    order: u64,
    coeffs: &[u64; TERMS],
    order_out: &mut u64,
    coeffs_out: &mut [u64; TERMS],
) -> u32
    ensures { series_returned_in_c result kinds.new words.new count.new order_out.new coeffs_out.new ≡ series_in_c order_out.old coeffs_out.old (series_on_pool (neg_call (series order coeffs.now)) kinds.old words.old count.old) }
{
    let mut lent = Lent::new(kinds, words, count);
    let s = Series::new(order, coeffs);
    outcome_answered(engine_series::neg(&mut lent, s), order_out, coeffs_out)
}

// exp e
#[unsafe(no_mangle)]
pub extern "C" fn bunlayog_taylor_exp(
    kinds: &mut [u8],
    words: &mut [u64],
    count: &mut u64,
    order: u64,
    coeffs: &[u64; TERMS],
    order_out: &mut u64,
    coeffs_out: &mut [u64; TERMS],
) -> u32
    ensures { series_returned_in_c result kinds.new words.new count.new order_out.new coeffs_out.new ≡ series_in_c order_out.old coeffs_out.old (series_on_pool (exp_call (series order coeffs.now)) kinds.old words.old count.old) }
{
    let mut lent = Lent::new(kinds, words, count);
    let s = Series::new(order, coeffs);
    outcome_answered(engine_series::exp(&mut lent, s), order_out, coeffs_out)
}

// log e
#[unsafe(no_mangle)]
pub extern "C" fn bunlayog_taylor_log(
    kinds: &mut [u8],
    words: &mut [u64],
    count: &mut u64,
    order: u64,
    coeffs: &[u64; TERMS],
    order_out: &mut u64,
    coeffs_out: &mut [u64; TERMS],
) -> u32
    ensures { series_returned_in_c result kinds.new words.new count.new order_out.new coeffs_out.new ≡ series_in_c order_out.old coeffs_out.old (series_on_pool (log_call (series order coeffs.now)) kinds.old words.old count.old) }
{
    let mut lent = Lent::new(kinds, words, count);
    let s = Series::new(order, coeffs);
    outcome_answered(engine_series::log(&mut lent, s), order_out, coeffs_out)
}

// e to a power
#[unsafe(no_mangle)]
pub extern "C" fn bunlayog_taylor_pow(
    kinds: &mut [u8],
    words: &mut [u64],
    count: &mut u64,
    order: u64,
    coeffs: &[u64; TERMS],
    exp: u32,
    order_out: &mut u64,
    coeffs_out: &mut [u64; TERMS],
) -> u32
    ensures { series_returned_in_c result kinds.new words.new count.new order_out.new coeffs_out.new ≡ series_in_c order_out.old coeffs_out.old (series_on_pool (pow_call (series order coeffs.now) exp) kinds.old words.old count.old) }
{
    let mut lent = Lent::new(kinds, words, count);
    let s = Series::new(order, coeffs);
    outcome_answered(engine_series::pow(&mut lent, s, exp), order_out, coeffs_out)
}

// The expansion of a variable at a node.
#[unsafe(no_mangle)]
pub extern "C" fn bunlayog_taylor_var(
    kinds: &mut [u8],
    words: &mut [u64],
    count: &mut u64,
    x: u64,
    order: u64,
    order_out: &mut u64,
    coeffs_out: &mut [u64; TERMS],
) -> u32
    ensures { series_returned_in_c result kinds.new words.new count.new order_out.new coeffs_out.new ≡ series_in_c order_out.old coeffs_out.old (series_on_pool (var_call x order) kinds.old words.old count.old) }
{
    let mut lent = Lent::new(kinds, words, count);
    outcome_answered(
        engine_given::var(&mut lent, x, order),
        order_out,
        coeffs_out,
    )
}
