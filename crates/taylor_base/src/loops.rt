// The loops of the definitions, `each`, `each_two`, `fold` and `fill`: what is made at each turn, the closure says. A contract holds of any work that the closure makes.
ghost use Rattle.std.specs.Prelude.{◌≡◌, ◌+◌, ◌-◌, ◌^◌, ◌≤◌, ◌<◌, ℕ, List, [], ◌∷◌};
ghost use denote.Ref.{Bor, MutBor};
ghost use Rattle.pool.specs.Pool.{Pool, Run};
ghost use Rattle.pool.specs.Made.{made};
ghost use Rattle.taylor.specs.Work.{each, each_two, fold, fill};
ghost use Rattle.taylor.specs.Coefficients.{terms};
ghost use Rattle.taylor_base.specs.Makes.{Makes};

use pool::Pool;
use refusals::Refusal;
use taylor::Coefficients;

// Of the entries of both lists side by side, up to the shorter length.
#[tactic(auto, using(crate::proofs::Entrywise::ends))]
pub fn pairs_in<F: Fn(&mut Pool, u32, u32) -> Result<u32, Refusal>>(
    pool: &mut Pool,
    us: &Coefficients,
    ws: &Coefficients,
    make: F,
) -> Result<Coefficients, Refusal>
    requires { F.IsAlwaysCallable make }
    ensures { (f : ℕ → ℕ → Run) → ((u w : ℕ) → Makes (λ p. F.post make p u w) (f u w)) → made result pool.new ≡ each_two f us.now ws.now pool.old }
{
    let end = us.len().min(ws.len());
    let first = make(pool, us.at(0), ws.at(0))?;
    let mut list = Coefficients::one(first);
    for k in 1..end {
        list.push(make(pool, us.at(k), ws.at(k))?);
    }
    Ok(list)
}

// Of each entry of a list.
pub fn each_in<F: Fn(&mut Pool, u32) -> Result<u32, Refusal>>(
    pool: &mut Pool,
    us: &Coefficients,
    make: F,
) -> Result<Coefficients, Refusal>
    requires { F.IsAlwaysCallable make }
    ensures { (f : ℕ → Run) → ((u : ℕ) → Makes (λ p. F.post make p u) (f u)) → made result pool.new ≡ each f us.now pool.old }
{
    pairs_in(pool, us, us, |pool, u, _| make(pool, u))
}

// (first .. first + todo).fold(start, next)
#[tactic(auto, using(crate::proofs::Folding::turns))]
pub fn fold_in<F: Fn(&mut Pool, u32, u32) -> Result<u32, Refusal>>(
    pool: &mut Pool,
    first: u32,
    todo: u32,
    start: u32,
    next: F,
) -> Result<u32, Refusal>
    requires fits { first + todo < 2 ^ 32 }
    requires may { (p : MutBor Pool) (sum j : ℕ) → first ≤ j → j < first + todo → F.pre next p sum j }
    ensures { (f : ℕ → ℕ → Run) → ((sum j : ℕ) → Makes (λ p. F.post next p sum j) (f sum j)) → made result pool.new ≡ fold f first todo start pool.old }
{
    let mut sum = start;
    for j in first..first + todo {
        sum = next(pool, sum, j)?;
    }
    Ok(sum)
}

// The list of n coefficients of which the first is given, and coefficient k is made of those before it.
#[tactic(auto, using(crate::proofs::Filling::ends))]
pub fn fill_in<F: Fn(&mut Pool, &Coefficients, u32) -> Result<u32, Refusal>>(
    pool: &mut Pool,
    first: u32,
    n: u32,
    next: F,
) -> Result<Coefficients, Refusal>
    requires fits { (1 ≤ n) × (n ≤ terms) }
    requires may { (p : MutBor Pool) (res : Bor (List ℕ)) (k : ℕ) → 1 ≤ k → k < n → F.pre next p res k }
    ensures { (f : List ℕ → ℕ → Run) → ((res : Bor (List ℕ)) (k : ℕ) → Makes (λ p. F.post next p res k) (f res.now k)) → made result pool.new ≡ fill f (n - 1) (first ∷ []) pool.old }
{
    let mut res = Coefficients::one(first);
    for k in 1..n {
        res.push(next(pool, &res, k)?);
    }
    Ok(res)
}
