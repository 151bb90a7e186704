// `node_fmt` of src/symbolic.rs: a node's own signs, and its parts by calls on smaller numbers. A text that is only counted is written to an empty output.
ghost use Rattle.std.specs.Prelude.{◌≡◌, ◌++◌};
ghost use Rattle.low_bytes.specs.Output.{Wrote};
ghost use Rattle.pool.specs.Tables.{nodes};
ghost use Rattle.text.specs.Text.{decimal};
ghost use Rattle.walks.specs.Print.{precedence, node_text, text_below, text_of, hat, closing};

use crate::output::{write_exponent, write_literal, write_variable};
use low_bytes::{Place, put, write};
use pool::{Node, Tables};

// `precedence` of src/symbolic.rs.
fn precedence(node: Node) -> u32
    ensures { result ≡ precedence node }
{
    match node {
        Node::Empty => 10,
        Node::Variable(_) => 10,
        Node::Lit(_) => 10,
        Node::Add(_, _) => 0,
        Node::Mul(_, _) => 1,
        Node::Div(_, _) => 1,
        Node::Exp(_) => 10,
        Node::Log(_) => 10,
        Node::Pow(_, _) => 2,
        Node::Max(_, _) => 10,
    }
}

// A part whose number is below the bound, in brackets where its precedence is less than the one it stands under. Any other part prints nothing. The two are
// numbers of their own: a struct of two numbers is handed on through memory, stored one by one and then read as one, and takes a processor longer.
#[cycle(fmt)]
#[tactic(auto, using(low_bytes::proofs::Writing::sets_joined, crate::proofs::Bounded::none_from_the_bound, crate::proofs::Bounded::in_brackets, crate::proofs::Bounded::without_brackets))]
fn node_fmt(tables: Tables, out: &mut [u8], at: Place, bound: usize, of: u32, under: u32) -> Place
    ensures { Wrote at out.old (text_below (nodes tables.entry) bound under of) result out.new }
{
    let i = of as usize;
    if bound <= i {
        return at;
    }
    if at.is_past() {
        return at;
    }
    if precedence(tables.node(of)) < under {
        let opened = put(out, at, b'(');
        let inner = inside(tables, out, opened, i, of);
        return put(out, inner, b')');
    }
    inside(tables, out, at, i, of)
}

// A node without the brackets around it; its parts are below its own number. It is looked up where it is matched: a node that is handed on takes longer. The
// numbers of a node that has two are read from its word: a node made by value is stored in pieces and read back whole, which a processor waits for.
#[cycle(fmt)]
#[tactic(auto, using(pool::proofs::WordHalves::by_halves), unfolding(pool::specs::Pool::node_in, pool::specs::Nodes::decode))]
fn inside(tables: Tables, out: &mut [u8], at: Place, i: usize, of: u32) -> Place
    ensures { Wrote at out.old (node_text (text_below (nodes tables.entry) i) (nodes tables.entry of)) result out.new }
{
    let left = tables.left(of);
    let right = tables.right(of);
    match tables.node(of) {
        Node::Empty => at,
        Node::Variable(v) => write_variable(out, at, v),
        Node::Lit(z) => write_literal(out, at, z),
        Node::Add(_, _) => joined(tables, out, at, i, left, 0, b" + ", right, 0),
        Node::Mul(_, _) => joined(tables, out, at, i, left, 1, b"*", right, 1),
        Node::Div(_, _) => joined(tables, out, at, i, left, 1, b"/", right, 2),
        Node::Exp(a) => wrapped(tables, out, at, i, b"exp(", a),
        Node::Log(a) => wrapped(tables, out, at, i, b"log(", a),
        Node::Pow(_, _) => power(tables, out, at, i, left, right),
        Node::Max(_, _) => at,
    }
}

// Two parts, the left one under the precedence `first` and the right one under `second`, and the sign between them.
#[cycle(fmt)]
#[tactic(auto, using(low_bytes::proofs::Writing::sets_joined))]
fn joined(
    tables: Tables,
    out: &mut [u8],
    at: Place,
    i: usize,
    left: u32,
    first: u32,
    sign: &[u8],
    right: u32,
    second: u32,
) -> Place
    ensures { Wrote at out.old (text_below (nodes tables.entry) i first left ++ sign.now ++ text_below (nodes tables.entry) i second right) result out.new }
{
    let before = node_fmt(tables, out, at, i, left, first);
    let after = write(out, before, sign);
    node_fmt(tables, out, after, i, right, second)
}

// One part between an opening and its closing bracket.
#[cycle(fmt)]
#[tactic(auto, using(low_bytes::proofs::Writing::sets_joined))]
fn wrapped(tables: Tables, out: &mut [u8], at: Place, i: usize, opening: &[u8], a: u32) -> Place
    ensures { Wrote at out.old (opening.now ++ text_below (nodes tables.entry) i 0 a ++ closing) result out.new }
{
    let opened = write(out, at, opening);
    let inner = node_fmt(tables, out, opened, i, a, 0);
    put(out, inner, b')')
}

// A base and its exponent.
#[cycle(fmt)]
#[tactic(auto, using(low_bytes::proofs::Writing::sets_joined))]
fn power(tables: Tables, out: &mut [u8], at: Place, i: usize, a: u32, e: u32) -> Place
    ensures { Wrote at out.old (text_below (nodes tables.entry) i 3 a ++ hat ++ decimal e) result out.new }
{
    let base = node_fmt(tables, out, at, i, a, 3);
    let hat = put(out, base, b'^');
    write_exponent(out, hat, e)
}

// The whole text of a root, from the front of the output on.
#[tactic(auto, using(crate::proofs::Bounded::whole_text))]
pub fn text_in(tables: Tables, root: u32, out: &mut [u8]) -> usize
    ensures { Wrote 0 out.old (text_of (nodes tables.entry) root) result out.new }
{
    node_fmt(tables, out, Place::front(), root as usize + 1, root, 0).number()
}
