// The coefficients of a quotient, of an exponential and of a logarithm, each from those before it.
ghost use Rattle.std.specs.Prelude.{◌≡◌, ◌≤◌, ◌<◌};
ghost use Rattle.pool.specs.Made.{made};
ghost use Rattle.taylor.specs.Coefficients.{terms};
ghost use Rattle.taylor.specs.Expansion.{quotient_term, quotient_at, exp_term, exp_at, log_at};

use constructors::DEPTH;
use pool::Pool;
use refusals::Refusal;
use taylor::Coefficients;
use taylor_base::{fold_in, from_in, sub_nodes};

// sum - res[i] * ws[k - i]. A product has a function of its own (`product_term`), which adds: the two share the one line that makes the product.
fn quotient_term(
    pool: &mut Pool,
    res: &Coefficients,
    ws: &Coefficients,
    k: u32,
    sum: u32,
    i: u32,
) -> Result<u32, Refusal>
    requires { i ≤ k }
    ensures { made result pool.new ≡ quotient_term res.now ws.now k sum i pool.old }
{
    let product = muls::mul_in(pool, DEPTH, res.at(i), ws.at(k - i))?;
    sub_nodes(pool, sum, product)
}

// sum + res[k - j] * us[j] * j; a logarithm has the two lists the other way round
fn weighted_term(
    pool: &mut Pool,
    res: &Coefficients,
    us: &Coefficients,
    k: u32,
    sum: u32,
    j: u32,
) -> Result<u32, Refusal>
    requires { j ≤ k }
    ensures { made result pool.new ≡ exp_term res.now us.now k sum j pool.old }
{
    let product = muls::mul_in(pool, DEPTH, res.at(k - j), us.at(j))?;
    let weight = from_in(pool, j)?;
    let weighted = muls::mul_in(pool, DEPTH, product, weight)?;
    adds::add_in(pool, DEPTH, sum, weighted)
}

// scale * (start - res[0] * ws[k] - res[1] * ws[k - 1] - ..)
pub fn quotient_at(
    pool: &mut Pool,
    start: u32,
    scale: u32,
    ws: &Coefficients,
    res: &Coefficients,
    k: u32,
) -> Result<u32, Refusal>
    ensures { made result pool.new ≡ quotient_at (λ k. start) ws.now scale res.now k pool.old }
{
    let sum = fold_in(
        pool,
        0,
        k,
        start,
        |pool, sum, i| quotient_term(pool, res, ws, k, sum, i),
    )?;
    muls::mul_in(pool, DEPTH, scale, sum)
}

// (res[k - 1] * us[1] * 1 + res[k - 2] * us[2] * 2 + ..) / k
pub fn exp_at(
    pool: &mut Pool,
    zero: u32,
    us: &Coefficients,
    res: &Coefficients,
    k: u32,
) -> Result<u32, Refusal>
    requires { k < terms }
    ensures { made result pool.new ≡ exp_at us.now zero res.now k pool.old }
{
    let sum = fold_in(
        pool,
        1,
        k,
        zero,
        |pool, sum, j| weighted_term(pool, res, us, k, sum, j),
    )?;
    let n = from_in(pool, k)?;
    logs::div_in(pool, DEPTH, sum, n)
}

// (us[k] * k - (us[k - 1] * res[1] * 1 + us[k - 2] * res[2] * 2 + ..)) / us[0] / k
pub fn log_at(
    pool: &mut Pool,
    zero: u32,
    us: &Coefficients,
    res: &Coefficients,
    k: u32,
) -> Result<u32, Refusal>
    requires { 1 ≤ k }
    ensures { made result pool.new ≡ log_at us.now zero res.now k pool.old }
{
    let sum = fold_in(
        pool,
        1,
        k - 1,
        zero,
        |pool, sum, j| weighted_term(pool, us, res, k, sum, j),
    )?;
    let n = from_in(pool, k)?;
    let product = muls::mul_in(pool, DEPTH, us.at(k), n)?;
    let difference = sub_nodes(pool, product, sum)?;
    let quotient = logs::div_in(pool, DEPTH, difference, us.at(0))?;
    let m = from_in(pool, k)?;
    logs::div_in(pool, DEPTH, quotient, m)
}
