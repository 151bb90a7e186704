// The constructors as C functions.
ghost use Rattle.std.specs.Prelude.{◌≡◌, [], ◌∷◌};
ghost use Rattle.constructors.specs.Build.{calls, depth};
ghost use Rattle.lent.specs.Call.{on_pool, given_nodes};
ghost use Rattle.engine.specs.Build.{lit_work, var_work};
ghost use Rattle.c_answers.specs.Interface.{returned_in_c, in_c};

use c_answers::answered;
use lent::Lent;

#[unsafe(no_mangle)]
pub extern "C" fn bunlayog_lit(
    kinds: &mut [u8],
    words: &mut [u64],
    count: &mut u64,
    value: i64,
    node: &mut u64,
) -> u32
    ensures { returned_in_c result kinds.new words.new count.new node.new ≡ in_c node.old (on_pool (lit_work value) kinds.old words.old count.old) }
{
    let mut lent = Lent::new(kinds, words, count);
    answered(engine::lit(&mut lent, value), node)
}

#[unsafe(no_mangle)]
pub extern "C" fn bunlayog_var(
    kinds: &mut [u8],
    words: &mut [u64],
    count: &mut u64,
    number: u64,
    node: &mut u64,
) -> u32
    ensures { returned_in_c result kinds.new words.new count.new node.new ≡ in_c node.old (on_pool (var_work number) kinds.old words.old count.old) }
{
    let mut lent = Lent::new(kinds, words, count);
    answered(engine::var(&mut lent, number), node)
}

#[unsafe(no_mangle)]
pub extern "C" fn bunlayog_add(
    kinds: &mut [u8],
    words: &mut [u64],
    count: &mut u64,
    lhs: u64,
    rhs: u64,
    node: &mut u64,
) -> u32
    ensures { returned_in_c result kinds.new words.new count.new node.new ≡ in_c node.old (on_pool (given_nodes (lhs ∷ rhs ∷ []) ((calls depth).add_at lhs rhs)) kinds.old words.old count.old) }
{
    let mut lent = Lent::new(kinds, words, count);
    answered(engine::add(&mut lent, lhs, rhs), node)
}

#[unsafe(no_mangle)]
pub extern "C" fn bunlayog_mul(
    kinds: &mut [u8],
    words: &mut [u64],
    count: &mut u64,
    lhs: u64,
    rhs: u64,
    node: &mut u64,
) -> u32
    ensures { returned_in_c result kinds.new words.new count.new node.new ≡ in_c node.old (on_pool (given_nodes (lhs ∷ rhs ∷ []) ((calls depth).mul_at lhs rhs)) kinds.old words.old count.old) }
{
    let mut lent = Lent::new(kinds, words, count);
    answered(engine::mul(&mut lent, lhs, rhs), node)
}

#[unsafe(no_mangle)]
pub extern "C" fn bunlayog_div(
    kinds: &mut [u8],
    words: &mut [u64],
    count: &mut u64,
    lhs: u64,
    rhs: u64,
    node: &mut u64,
) -> u32
    ensures { returned_in_c result kinds.new words.new count.new node.new ≡ in_c node.old (on_pool (given_nodes (lhs ∷ rhs ∷ []) ((calls depth).div_at lhs rhs)) kinds.old words.old count.old) }
{
    let mut lent = Lent::new(kinds, words, count);
    answered(engine::div(&mut lent, lhs, rhs), node)
}

#[unsafe(no_mangle)]
pub extern "C" fn bunlayog_max(
    kinds: &mut [u8],
    words: &mut [u64],
    count: &mut u64,
    lhs: u64,
    rhs: u64,
    node: &mut u64,
) -> u32
    ensures { returned_in_c result kinds.new words.new count.new node.new ≡ in_c node.old (on_pool (given_nodes (lhs ∷ rhs ∷ []) ((calls depth).max_at lhs rhs)) kinds.old words.old count.old) }
{
    let mut lent = Lent::new(kinds, words, count);
    answered(engine::max(&mut lent, lhs, rhs), node)
}

#[unsafe(no_mangle)]
pub extern "C" fn bunlayog_neg(
    kinds: &mut [u8],
    words: &mut [u64],
    count: &mut u64,
    arg: u64,
    node: &mut u64,
) -> u32
    ensures { returned_in_c result kinds.new words.new count.new node.new ≡ in_c node.old (on_pool (given_nodes (arg ∷ []) ((calls depth).neg_at arg)) kinds.old words.old count.old) }
{
    let mut lent = Lent::new(kinds, words, count);
    answered(engine::neg(&mut lent, arg), node)
}

#[unsafe(no_mangle)]
pub extern "C" fn bunlayog_exp(
    kinds: &mut [u8],
    words: &mut [u64],
    count: &mut u64,
    arg: u64,
    node: &mut u64,
) -> u32
    ensures { returned_in_c result kinds.new words.new count.new node.new ≡ in_c node.old (on_pool (given_nodes (arg ∷ []) ((calls depth).exp_at arg)) kinds.old words.old count.old) }
{
    let mut lent = Lent::new(kinds, words, count);
    answered(engine::exp(&mut lent, arg), node)
}

#[unsafe(no_mangle)]
pub extern "C" fn bunlayog_log(
    kinds: &mut [u8],
    words: &mut [u64],
    count: &mut u64,
    arg: u64,
    node: &mut u64,
) -> u32
    ensures { returned_in_c result kinds.new words.new count.new node.new ≡ in_c node.old (on_pool (given_nodes (arg ∷ []) ((calls depth).log_at arg)) kinds.old words.old count.old) }
{
    let mut lent = Lent::new(kinds, words, count);
    answered(engine::log(&mut lent, arg), node)
}

#[unsafe(no_mangle)]
pub extern "C" fn bunlayog_pow(
    kinds: &mut [u8],
    words: &mut [u64],
    count: &mut u64,
    base: u64,
    exp: u32,
    node: &mut u64,
) -> u32
    ensures { returned_in_c result kinds.new words.new count.new node.new ≡ in_c node.old (on_pool (given_nodes (base ∷ []) ((calls depth).pow_at base exp)) kinds.old words.old count.old) }
{
    let mut lent = Lent::new(kinds, words, count);
    answered(engine::pow(&mut lent, base, exp), node)
}
