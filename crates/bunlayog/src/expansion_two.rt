// The operations on two expansions as C functions.
ghost use Rattle.std.specs.Prelude.{◌≡◌};
ghost use Rattle.lent_series.specs.Call.{series_on_pool};
ghost use Rattle.engine_pairs.specs.Pairs.{add_call, sub_call, mul_call, div_call, max_call, subst_call};
ghost use Rattle.c_answers.specs.Expansions.{series, series_returned_in_c, series_in_c};

use c_answers::outcome_answered;
use lent::Lent;
use lent_series::Series;
use taylor::TERMS;

// lhs + rhs
#[unsafe(no_mangle)]
pub extern "C" fn bunlayog_taylor_add(
    kinds: &mut [u8],
    words: &mut [u64],
    count: &mut u64,
    lhs_order: u64,
    lhs: &[u64; TERMS],
    rhs_order: u64,
    rhs: &[u64; TERMS],
    order_out: &mut u64,
    coeffs_out: &mut [u64; TERMS],
) -> u32
    ensures { series_returned_in_c result kinds.new words.new count.new order_out.new coeffs_out.new ≡ series_in_c order_out.old coeffs_out.old (series_on_pool (add_call (series lhs_order lhs.now) (series rhs_order rhs.now)) kinds.old words.old count.old) }
{
    let mut lent = Lent::new(kinds, words, count);
    let s = Series::new(lhs_order, lhs);
    let t = Series::new(rhs_order, rhs);
    outcome_answered(engine_pairs::add(&mut lent, s, t), order_out, coeffs_out)
}

// lhs - rhs
#[unsafe(no_mangle)]
pub extern "C" fn bunlayog_taylor_sub(
    kinds: &mut [u8],
    words: &mut [u64],
    count: &mut u64,
    lhs_order: u64,
    lhs: &[u64; TERMS],
    rhs_order: u64,
    rhs: &[u64; TERMS],
    order_out: &mut u64,
    coeffs_out: &mut [u64; TERMS],
) -> u32
    ensures { series_returned_in_c result kinds.new words.new count.new order_out.new coeffs_out.new ≡ series_in_c order_out.old coeffs_out.old (series_on_pool (sub_call (series lhs_order lhs.now) (series rhs_order rhs.now)) kinds.old words.old count.old) }
{
    let mut lent = Lent::new(kinds, words, count);
    let s = Series::new(lhs_order, lhs);
    let t = Series::new(rhs_order, rhs);
    outcome_answered(engine_pairs::sub(&mut lent, s, t), order_out, coeffs_out)
}

// lhs * rhs
#[unsafe(no_mangle)]
pub extern "C" fn bunlayog_taylor_mul(
    kinds: &mut [u8],
    words: &mut [u64],
    count: &mut u64,
    lhs_order: u64,
    lhs: &[u64; TERMS],
    rhs_order: u64,
    rhs: &[u64; TERMS],
    order_out: &mut u64,
    coeffs_out: &mut [u64; TERMS],
) -> u32
    ensures { series_returned_in_c result kinds.new words.new count.new order_out.new coeffs_out.new ≡ series_in_c order_out.old coeffs_out.old (series_on_pool (mul_call (series lhs_order lhs.now) (series rhs_order rhs.now)) kinds.old words.old count.old) }
{
    let mut lent = Lent::new(kinds, words, count);
    let s = Series::new(lhs_order, lhs);
    let t = Series::new(rhs_order, rhs);
    outcome_answered(engine_pairs::mul(&mut lent, s, t), order_out, coeffs_out)
}

// lhs / rhs
#[unsafe(no_mangle)]
pub extern "C" fn bunlayog_taylor_div(
    kinds: &mut [u8],
    words: &mut [u64],
    count: &mut u64,
    lhs_order: u64,
    lhs: &[u64; TERMS],
    rhs_order: u64,
    rhs: &[u64; TERMS],
    order_out: &mut u64,
    coeffs_out: &mut [u64; TERMS],
) -> u32
    ensures { series_returned_in_c result kinds.new words.new count.new order_out.new coeffs_out.new ≡ series_in_c order_out.old coeffs_out.old (series_on_pool (div_call (series lhs_order lhs.now) (series rhs_order rhs.now)) kinds.old words.old count.old) }
{
    let mut lent = Lent::new(kinds, words, count);
    let s = Series::new(lhs_order, lhs);
    let t = Series::new(rhs_order, rhs);
    outcome_answered(engine_pairs::div(&mut lent, s, t), order_out, coeffs_out)
}

// What `max` makes of two constants; 10 of any list.
#[unsafe(no_mangle)]
pub extern "C" fn bunlayog_taylor_max(
    kinds: &mut [u8],
    words: &mut [u64],
    count: &mut u64,
    lhs_order: u64,
    lhs: &[u64; TERMS],
    rhs_order: u64,
    rhs: &[u64; TERMS],
    order_out: &mut u64,
    coeffs_out: &mut [u64; TERMS],
) -> u32
    ensures { series_returned_in_c result kinds.new words.new count.new order_out.new coeffs_out.new ≡ series_in_c order_out.old coeffs_out.old (series_on_pool (max_call (series lhs_order lhs.now) (series rhs_order rhs.now)) kinds.old words.old count.old) }
{
    let mut lent = Lent::new(kinds, words, count);
    let s = Series::new(lhs_order, lhs);
    let t = Series::new(rhs_order, rhs);
    outcome_answered(engine_pairs::max(&mut lent, s, t), order_out, coeffs_out)
}

// rhs put for the variable of lhs: 5 where two lists differ in length.
#[unsafe(no_mangle)]
pub extern "C" fn bunlayog_taylor_subst(
    kinds: &mut [u8],
    words: &mut [u64],
    count: &mut u64,
    lhs_order: u64,
    lhs: &[u64; TERMS],
    rhs_order: u64,
    rhs: &[u64; TERMS],
    order_out: &mut u64,
    coeffs_out: &mut [u64; TERMS],
) -> u32
    ensures { series_returned_in_c result kinds.new words.new count.new order_out.new coeffs_out.new ≡ series_in_c order_out.old coeffs_out.old (series_on_pool (subst_call (series lhs_order lhs.now) (series rhs_order rhs.now)) kinds.old words.old count.old) }
{
    let mut lent = Lent::new(kinds, words, count);
    let s = Series::new(lhs_order, lhs);
    let t = Series::new(rhs_order, rhs);
    outcome_answered(engine_pairs::subst(&mut lent, s, t), order_out, coeffs_out)
}
