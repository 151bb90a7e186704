// The first line of a sheet.
ghost use Rattle.std.specs.Prelude.{◌≡◌, ◌++◌};
ghost use Rattle.low_bytes.specs.Output.{Wrote};
ghost use Rattle.text.specs.Text.{decimal};
ghost use Rattle.sheet_text.specs.Sheet.{point_text, colon};
ghost use Rattle.sheet_page.specs.Pages.{refused_line, first_line, head_of, lines_in};
ghost use Rattle.sheet_page.specs.declared.first.Message.TheVariants.{Refused};

use low_bytes::{Place, write};
use refusals::Refusal;
use taylor::TERMS;

// What a sheet without coefficients says: that the line has not the form, or why there are none.
#[derive(Clone, Copy, Debug, PartialEq, Eq)]
pub enum Message {
    Usage,
    Refused(Refusal),
}

impl From<Refusal> for Message {
    ghost from_gives = { λ refusal m. m ≡ Refused refusal };

    fn from(refusal: Refusal) -> Message {
        Message::Refused(refusal)
    }
}

// What was asked for, how many coefficients follow, and an expansion's entries, the first of which they are: nodes of a pool. A sheet is a page or a message.
#[derive(Clone, Copy)]
pub struct Page {
    pub var: u32,
    pub order: u32,
    pub point: Option<i64>,
    pub lines: u32,
    pub nodes: [u32; TERMS],
}

// How many coefficients follow the first line.
pub fn lines_of(sheet: &Result<Page, Message>) -> u32
    ensures { result ≡ lines_in sheet.now }
{
    match sheet {
        Ok(page) => page.lines,
        Err(_) => 0,
    }
}

// `refused`, a space and the number.
fn refused_line(out: &mut [u8], number: u32) -> Place
    ensures { Wrote 0 out.old (refused_line number) result out.new }
{
    let a = write(out, Place::front(), b"refused ");
    let b = print::write_exponent(out, a, number);
    write(out, b, b"\n")
}

// The point, or `none`.
#[tactic(auto, using(low_bytes::proofs::Writing::written_as))]
fn point_text(out: &mut [u8], at: Place, point: Option<i64>) -> Place
    ensures { Wrote at out.old (point_text point) result out.new }
{
    match point {
        None => write(out, at, b"none"),
        Some(z) => print::write_literal(out, at, z),
    }
}

// Variable, order, and point or `none`.
fn first_line(out: &mut [u8], var: u32, order: u32, point: Option<i64>) -> Place
    ensures { Wrote 0 out.old (first_line var order point) result out.new }
{
    let a = print::write_exponent(out, Place::front(), var);
    let b = write(out, a, b" ");
    let c = print::write_exponent(out, b, order);
    let d = write(out, c, b" ");
    let e = point_text(out, d, point);
    write(out, e, b"\n")
}

// The first line, or the only one.
pub fn head(out: &mut [u8], sheet: &Result<Page, Message>) -> Place
    ensures { Wrote 0 out.old (head_of sheet.now) result out.new }
{
    match sheet {
        Ok(page) => first_line(out, page.var, page.order, page.point),
        Err(Message::Usage) => write(out, Place::front(), b"usage\n"),
        Err(Message::Refused(refusal)) => refused_line(out, refusal.number()),
    }
}

// An index, a colon and a space.
pub fn label(out: &mut [u8], index: u32) -> Place
    ensures { Wrote 0 out.old (decimal index ++ colon) result out.new }
{
    let a = print::write_exponent(out, Place::front(), index);
    write(out, a, b": ")
}
