// Printing as a call from outside. Why both tables and the count are three parameters stands at `lent::tables`.
#![tactic(auto)]

ghost use Rattle.std.specs.Prelude.{◌≡◌};
ghost use Rattle.refusals.specs.Numbers.{numbered};
ghost use Rattle.engine_print.specs.Printing.{print_call};
ghost use Rattle.lent.specs.Writing.{put};

use pool::Node;
use refusals::Refusal;

// The text of an expression, into a lent output; `print_into` leaves the output as it is where the text is too long or has no room there.
#[tactic(auto, unfolding(crate::specs::Printing::print_call), using(lent::proofs::Calling::one_fits))]
pub fn print(
    kinds: &[u8],
    words: &[u64],
    count: u64,
    root: u64,
    out: &mut [u8],
) -> Result<u64, Refusal>
    ensures { put (numbered result) out.new ≡ print_call kinds.now words.now count root out.old }
{
    let tables = lent::tables(kinds, words, count)?;
    lent::one_given(count, root)?;
    let node = root as u32;
    if reached::reaches(tables, node, |n| matches!(n, Node::Max(_, _))) {
        return Err(Refusal::MaxReached);
    }
    let length = print::print_into(tables, node, out) as usize;
    if low_bytes::TEXT_MAX < length {
        return Err(Refusal::NoRoom);
    }
    if out.len() < length {
        return Err(Refusal::NoRoom);
    }
    Ok(length as u64)
}
