// The sheet of a file's bytes and a line's bytes.
ghost use Rattle.sheet_text.specs.Sheet.{sheet};
ghost use Rattle.sheet_lines.specs.Prepared.{Prepared};

use crate::answer::answer_to;
use pool::Pool;
use sheet_page::{Message, Page};

// The sheet; the pool holds the nodes of its coefficients then.
pub fn prepared(file: &[u8], line: &[u8], pool: &mut Pool) -> Result<Page, Message>
    ensures { Prepared result pool.new.kinds pool.new.words (sheet file.now line.now) }
{
    match sheet_line::parse(line) {
        Some(asked) => answer_to(file, pool, asked),
        None => Err(Message::Usage),
    }
}
