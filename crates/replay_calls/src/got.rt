// What a call gave, or what the list says it gives.
ghost use Rattle.std.specs.Prelude.{◌≡◌};
ghost use Rattle.refusals.specs.Numbers.{numbered};

use number_list::Numbers;
use refusals::Refusal;

// A refusal that no call gives: for a table or room that is longer than any of the list.
pub const UNLISTED: u64 = 99;

// The answer, or the refusal number.
pub type Got = Result<u64, u64>;

pub fn of_answer(answer: Result<u64, Refusal>) -> Result<u64, u64>
    ensures { result ≡ numbered answer }
{
    answer.map_err(|refusal| u64::from(refusal.number()))
}

// What the list says: the refusal number, and behind a 0 the answer.
pub fn expected(list: &mut Numbers) -> Got {
    match list.next() {
        0 => Ok(list.next()),
        number => Err(number),
    }
}
