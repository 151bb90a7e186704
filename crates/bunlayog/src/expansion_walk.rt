// The expansion of an expression as a C function.
ghost use Rattle.std.specs.Prelude.{◌≡◌, Some, None};
ghost use Rattle.lent_series.specs.Call.{series_on_pool};
ghost use Rattle.engine_expand.specs.Expressions.{expand_work};
ghost use Rattle.c_answers.specs.Expansions.{series_returned_in_c, series_in_c};

use c_answers::outcome_answered;
use lent::Lent;
use taylor::TERMS;

// At the variable itself.
#[unsafe(no_mangle)]
pub extern "C" fn bunlayog_taylor_coeffs(
    kinds: &mut [u8],
    words: &mut [u64],
    count: &mut u64,
    root: u64,
    var: u64,
    order: u64,
    order_out: &mut u64,
    coeffs_out: &mut [u64; TERMS],
) -> u32
    ensures { series_returned_in_c result kinds.new words.new count.new order_out.new coeffs_out.new ≡ series_in_c order_out.old coeffs_out.old (series_on_pool (expand_work root var None order) kinds.old words.old count.old) }
{
    let mut lent = Lent::new(kinds, words, count);
    outcome_answered(
        engine_expand::coeffs(&mut lent, root, var, order),
        order_out,
        coeffs_out,
    )
}

// At a point.
#[unsafe(no_mangle)]
pub extern "C" fn bunlayog_taylor_coeffs_at(
    kinds: &mut [u8],
    words: &mut [u64],
    count: &mut u64,
    root: u64,
    var: u64,
    x: i64,
    order: u64,
    order_out: &mut u64,
    coeffs_out: &mut [u64; TERMS],
) -> u32
    ensures { series_returned_in_c result kinds.new words.new count.new order_out.new coeffs_out.new ≡ series_in_c order_out.old coeffs_out.old (series_on_pool (expand_work root var (Some x) order) kinds.old words.old count.old) }
{
    let mut lent = Lent::new(kinds, words, count);
    outcome_answered(
        engine_expand::coeffs_at(&mut lent, root, var, x, order),
        order_out,
        coeffs_out,
    )
}
