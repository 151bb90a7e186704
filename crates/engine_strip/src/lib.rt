// Key strips as calls from outside. Why both tables and the count are three parameters stands at `lent::tables`.
#![tactic(auto)]

ghost use Rattle.std.specs.Prelude.{◌≡◌};
ghost use Rattle.refusals.specs.Numbers.{numbered};
ghost use Rattle.lent.specs.Writing.{put};
ghost use Rattle.engine_strip.specs.Strips.{strip_call, run_strip_call};

use engine_values::VALUES_MAX;
use key_strip::PLACES;
use low_bytes::TEXT_MAX;
use pool::Node;
use refusals::Refusal;

// The strip of an expression, into a lent output: what it needs is known before a byte of it is written.
#[tactic(auto, unfolding(crate::specs::Strips::strip_call), using(lent::proofs::Calling::one_fits))]
pub fn strip(
    kinds: &[u8],
    words: &[u64],
    count: u64,
    root: u64,
    out: &mut [u8],
) -> Result<u64, Refusal>
    ensures { put (numbered result) out.new ≡ strip_call kinds.now words.now count root out.old }
{
    let tables = lent::tables(kinds, words, count)?;
    lent::one_given(count, root)?;
    let node = root as u32;
    if reached::reaches(tables, node, |n| matches!(n, Node::Exp(_) | Node::Log(_))) {
        return Err(Refusal::NotEvaluated);
    }
    let need = strip_write::need_of(tables, node);
    if PLACES < need.places {
        return Err(Refusal::TooManyPlaces);
    }
    let length = need.length as usize;
    if TEXT_MAX < length {
        return Err(Refusal::NoRoom);
    }
    if out.len() < length {
        return Err(Refusal::NoRoom);
    }
    strip_write::strip_into(tables, node, out);
    Ok(length as u64)
}

// The machine: the value of a strip, which may be any bytes, from a table with one double for each variable.
#[tactic(auto, unfolding(crate::specs::Strips::run_strip_call))]
pub fn run_strip(strip: &[u8], values: &[f64]) -> Result<f64, Refusal>
    ensures { numbered result ≡ run_strip_call strip.now values.now }
{
    if VALUES_MAX < values.len() {
        return Err(Refusal::WrongValues);
    }
    if !strip_run::is_strip(strip) {
        return Err(Refusal::WrongStrip);
    }
    strip_run::run(strip, values)
}
