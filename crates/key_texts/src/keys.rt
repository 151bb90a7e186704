// The keys of a strip in words: a line for each, put into a lent output.
ghost use Rattle.std.specs.Prelude.{◌++◌, ◌<◌, ◌≤◌, length};
ghost use Rattle.low_bytes.specs.Output.{Wrote};
ghost use Rattle.text.specs.Text.{bytes, decimal, signed_decimal, display};
ghost use Rattle.key_texts.specs.Texts.{key_line};
ghost use Rattle.key_texts.specs.Lines.{line_room, LineAt};

use low_bytes::{Place, write};
use pool::Node;

// Room for every line: `push `, `x_`, 20 digits and a line end would be 28 bytes.
pub const LINE_ROOM: usize = 32;

// The place behind the line in the output, and the next key's place in the strip.
#[derive(Clone, Copy)]
pub struct KeyLine {
    pub end: usize,
    pub next: usize,
}

// A variable is pushed. Each of these three lines has another value between the same two writes: a closure for it would be as long as the line.
fn push_variable(out: &mut [u8], v: u32) -> Place
    ensures { Wrote 0 out.old (bytes "push " ++ display v ++ bytes "\n") result out.new }
{
    let a = write(out, Place::front(), b"push ");
    let b = print::write_variable(out, a, v);
    write(out, b, b"\n")
}

// A literal is pushed.
fn push_literal(out: &mut [u8], z: i64) -> Place
    ensures { Wrote 0 out.old (bytes "push " ++ signed_decimal z ++ bytes "\n") result out.new }
{
    let a = write(out, Place::front(), b"push ");
    let b = print::write_literal(out, a, z);
    write(out, b, b"\n")
}

// The topmost value is raised.
fn power(out: &mut [u8], e: u32) -> Place
    ensures { Wrote 0 out.old (bytes "power " ++ decimal e ++ bytes "\n") result out.new }
{
    let a = write(out, Place::front(), b"power ");
    let b = print::write_exponent(out, a, e);
    write(out, b, b"\n")
}

// The line of a key.
#[tactic(auto, using(low_bytes::proofs::Writing::written_as))]
fn put_key(out: &mut [u8], key: Node) -> Place
    ensures { Wrote 0 out.old (key_line key) result out.new }
{
    match key {
        Node::Empty => write(out, Place::front(), b"\n"),
        Node::Variable(v) => push_variable(out, v),
        Node::Lit(z) => push_literal(out, z),
        Node::Add(_, _) => write(out, Place::front(), b"plus\n"),
        Node::Mul(_, _) => write(out, Place::front(), b"times\n"),
        Node::Div(_, _) => write(out, Place::front(), b"over\n"),
        Node::Exp(_) => write(out, Place::front(), b"\n"),
        Node::Log(_) => write(out, Place::front(), b"\n"),
        Node::Pow(_, e) => power(out, e),
        Node::Max(_, _) => write(out, Place::front(), b"max\n"),
    }
}

// The line of the key at a place of a strip.
#[tactic(auto, using(crate::proofs::Lengths::line_is_short, crate::proofs::Lengths::at_front, crate::proofs::Lengths::end_fits, crate::proofs::Lengths::listing_from_its_first_key))]
pub fn line_at(strip: &[u8], at: usize, out: &mut [u8]) -> KeyLine
    requires { (at < length strip.now) × (line_room ≤ length out.old) }
    ensures { LineAt strip.now at result out.new }
{
    let key = strip_run::key_at(strip, at);
    let end = put_key(out, key.node).number();
    KeyLine {
        end,
        next: key.next,
    }
}
