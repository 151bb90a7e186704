// The text of a root: how long it is, and the text in an output where it fits.
ghost use Rattle.std.specs.Prelude.{◌≡◌, ◌+◌, min, length};
ghost use Rattle.low_bytes.specs.Output.{longest_text};
ghost use Rattle.pool.specs.Tables.{nodes};
ghost use Rattle.walks.specs.Print.{text_of};
ghost use Rattle.print.specs.Output.{Printed};

use crate::walk::text_in;
use low_bytes::TEXT_MAX;
use pool::Tables;

// How many bytes of a text are kept while its length is found, and how many below a small root. They decide nothing but the time that printing takes: a
// scratch is cleared at every call.
const SCRATCH: usize = 16_384;

const SMALL_SCRATCH: usize = 4_096;

const SMALL_ROOT: u32 = 256;

// The length of the text, or one past the most that a text has.
pub fn text_length(tables: Tables, root: u32) -> u32
    ensures { result ≡ min (length (text_of (nodes tables.entry) root)) (longest_text + 1) }
{
    let mut none = [0u8; 0];
    text_in(tables, root, &mut none) as u32
}

// The text, from the front of the output on, as `print_into` has it. A text that the scratch has room for is made once, and a longer one twice.
#[tactic(auto, using(crate::proofs::Writing::put_in_front, crate::proofs::Writing::kept_in_front))]
fn print_by(tables: Tables, root: u32, scratch: &mut [u8], out: &mut [u8]) -> u32
    ensures { Printed (text_of (nodes tables.entry) root) out.old result out.new }
{
    let length = text_in(tables, root, scratch);
    if TEXT_MAX < length {
        return length as u32;
    }
    if out.len() < length {
        return length as u32;
    }
    if scratch.len() < length {
        text_in(tables, root, out);
        return length as u32;
    }
    out[..length].copy_from_slice(&scratch[..length]);
    length as u32
}

// The text, from the front of the output on, where it is not too long and the output has room for it; else the output stays as it is. The answer is the
// text's length, or one past the most that a text has.
pub fn print_into(tables: Tables, root: u32, out: &mut [u8]) -> u32
    ensures { Printed (text_of (nodes tables.entry) root) out.old result out.new }
{
    if root < SMALL_ROOT {
        let mut small = [0u8; SMALL_SCRATCH];
        return print_by(tables, root, &mut small, out);
    }
    let mut scratch = [0u8; SCRATCH];
    print_by(tables, root, &mut scratch, out)
}
