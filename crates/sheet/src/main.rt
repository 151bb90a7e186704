// The program `sheet`: the coefficient sheet of the expression in nodes.bin, for one line from standard input.
// Its whole text is known before a byte of it is printed; the pieces, asked for in order, are proved to be that text.
// An input that cannot be read is named on standard error, and then nothing is printed.
#![tactic(auto)]

ghost use Rattle.std.specs.Prelude.{IfOk};
ghost use Rattle.io.specs.Counts.{IsPrefixLen};

use inputs::FILE_ROOM;
use outputs::Failed;
use pool::Pool;
use sheet_lines::LINE_ROOM;
use sheet_page::{Message, PIECES, Page};
use std::fs::Files;
use std::io::{Eprint, Print};

// nodes.bin, a missing one counting as 0 bytes.
fn read_nodes(rt: &(impl Files + Eprint), file: &mut [u8; FILE_ROOM]) -> Result<usize, Failed>
    ensures { IfOk result (λ n. IsPrefixLen n file.new) }
{
    Ok(inputs::read_nodes(rt, file)?.unwrap_or(0))
}

// The file, unless the line asks for no sheet: then the file is not looked at.
fn nodes_for(
    rt: &(impl Files + Eprint),
    line: &[u8],
    file: &mut [u8; FILE_ROOM],
) -> Result<usize, Failed>
    ensures { IfOk result (λ n. IsPrefixLen n file.new) }
{
    if sheet_line::parse(line).is_none() {
        return Ok(0);
    }
    read_nodes(rt, file)
}

// One piece.
fn print_part(
    rt: &(impl Print + Eprint),
    sheet: &Result<Page, Message>,
    pool: &Pool,
    line: u32,
    part: u32,
    out: &mut [u8],
) -> Result<(), Failed> {
    let n = sheet_page::piece(sheet, pool.tables(), line, part, out);
    outputs::put(rt, &out[..n])
}

// The first line and those of the coefficients, each in its pieces.
fn print_sheet(
    rt: &(impl Print + Eprint),
    sheet: &Result<Page, Message>,
    pool: &Pool,
) -> Result<(), Failed> {
    let mut out = [0u8; low_bytes::TEXT_MAX];
    for line in 0..=sheet_page::lines_of(sheet) {
        for part in 0..PIECES {
            print_part(rt, sheet, pool, line, part, &mut out)?;
        }
    }
    Ok(())
}

// What failed has been told.
fn run(rt: &HostRuntime) -> Result<(), Failed> {
    let mut line = [0u8; LINE_ROOM];
    let m = inputs::read_input(rt, &mut rt.stdin(), b"standard input", &mut line)?;
    let mut file = [0u8; FILE_ROOM];
    let n = nodes_for(rt, &line[..m], &mut file)?;
    let mut pool = Pool::empty();
    let sheet = sheet_lines::prepared_from(&file, n, &line, m, &mut pool);
    print_sheet(rt, &sheet, &pool)
}

fn main(rt: HostRuntime) {
    let _ = run(&rt);
}
