// The sheet of a file and a line as they were read, each into a room of one byte more than the longest has: what fills its room is too long.
ghost use Rattle.std.specs.Prelude.{take};
ghost use Rattle.io.specs.Counts.{IsPrefixLen};
ghost use Rattle.sheet_text.specs.Sheet.{sheet};
ghost use Rattle.sheet_lines.specs.Prepared.{Prepared, PreparedFrom};

use crate::prepare::prepared;
use inputs::FILE_ROOM;
use pool::Pool;
use sheet_page::{Message, Page};

// One byte more than the longest line has.
pub const LINE_ROOM: usize = sheet_line::LINE_MAX + 1;

// The sheet of the first n bytes of one list and the first m of another.
fn prepared_of(
    file: &[u8],
    n: usize,
    line: &[u8],
    m: usize,
    pool: &mut Pool,
) -> Result<Page, Message>
    requires { IsPrefixLen n file.now × IsPrefixLen m line.now }
    ensures { Prepared result pool.new.kinds pool.new.words (sheet (take n file.now) (take m line.now)) }
{
    prepared(&file[..n], &line[..m], pool)
}

// The sheet of the file and the line that were read, n bytes of the one and m of the other.
pub fn prepared_from(
    file: &[u8; FILE_ROOM],
    n: usize,
    line: &[u8; LINE_ROOM],
    m: usize,
    pool: &mut Pool,
) -> Result<Page, Message>
    requires { IsPrefixLen n file.now × IsPrefixLen m line.now }
    ensures { PreparedFrom file.now n line.now m result pool.new.kinds pool.new.words }
{
    prepared_of(file, n, line, m, pool)
}
