// The pieces of a sheet: the first line, then an index, a text and a line end for each coefficient.
ghost use Rattle.std.specs.Prelude.{◌≤◌, length};
ghost use Rattle.low_bytes.specs.Output.{longest_text};
ghost use Rattle.pool.specs.Tables.{nodes};
ghost use Rattle.walks.specs.Print.{text_of};
ghost use Rattle.taylor.specs.Coefficients.{at};
ghost use Rattle.sheet_page.specs.Pages.{piece_of_line, piece_of, short, put_of, AtFront};

use crate::first::{Message, Page, head, label, lines_of};
use low_bytes::Place;
use pool::Tables;
use taylor::TERMS;

// How many pieces a line has at most. A piece goes by a number, as its line does, since the program counts through both.
pub const PIECES: u32 = 3;

// The text of a node, unless it is too long.
#[tactic(auto, using(crate::proofs::Whole::long_not_put, crate::proofs::Whole::short_put))]
fn text_of(tables: Tables, node: u32, out: &mut [u8]) -> usize
    requires { longest_text ≤ length out.old }
    ensures { AtFront (short (text_of (nodes tables.entry) node)) out.old result out.new }
{
    let n = print::print_into(tables, node, out) as usize;
    if n > low_bytes::TEXT_MAX {
        return 0;
    }
    n
}

// A piece of a coefficient's line, where there is room for the longest text.
#[tactic(auto, using(crate::proofs::Whole::put_short, crate::proofs::Whole::nothing_put, crate::proofs::Whole::wrote_put, crate::proofs::Whole::end_short, crate::proofs::Whole::no_part))]
fn piece_of_line(page: &Page, tables: Tables, index: u32, part: u32, out: &mut [u8]) -> usize
    requires { longest_text ≤ length out.old }
    ensures { AtFront (short (piece_of_line (text_of (nodes tables.entry) (at page.now.nodes index)) index part)) out.old result out.new }
{
    match part {
        0 => label(out, index).number(),
        1 => {
            let node = page.nodes.get(index as usize).copied().unwrap_or(0);
            text_of(tables, node, out)
        }
        2 => low_bytes::write(out, Place::front(), b"\n").number(),
        _ => 0,
    }
}

// A piece, where there is room for the longest text.
#[tactic(auto, using(crate::proofs::Whole::nothing_put, crate::proofs::Whole::one_first_piece, crate::proofs::Whole::no_line, crate::proofs::Whole::no_lines, crate::proofs::Whole::beyond_lines))]
fn piece_of(
    sheet: &Result<Page, Message>,
    tables: Tables,
    line: u32,
    part: u32,
    out: &mut [u8],
) -> usize
    requires { longest_text ≤ length out.old }
    ensures { AtFront (short (piece_of sheet.now tables.entry.kinds.now tables.entry.words.now line part)) out.old result out.new }
{
    if line == 0 {
        return if part == 0 {
            head(out, sheet).number()
        } else {
            0
        };
    }
    match sheet {
        Ok(page) => {
            if page.lines < line {
                return 0;
            }
            piece_of_line(page, tables, line - 1, part, out)
        }
        Err(_) => 0,
    }
}

// A piece, put at the front of the output: how many bytes it has, 0 where there is none or it cannot be put.
#[tactic(auto, using(crate::proofs::Whole::put_as, crate::proofs::Whole::nothing_put, crate::proofs::Whole::no_room, crate::proofs::Whole::too_many, crate::proofs::Whole::may_be_put))]
pub fn piece(
    sheet: &Result<Page, Message>,
    tables: Tables,
    line: u32,
    part: u32,
    out: &mut [u8],
) -> usize
    ensures { AtFront (put_of sheet.now tables.entry.kinds.now tables.entry.words.now line part (length out.old)) out.old result out.new }
{
    if out.len() < low_bytes::TEXT_MAX {
        return 0;
    }
    if lines_of(sheet) as usize > TERMS {
        return 0;
    }
    piece_of(sheet, tables, line, part, out)
}
