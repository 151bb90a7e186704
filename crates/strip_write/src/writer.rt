// A strip written to an output that has room for it: a node's parts by calls on smaller numbers, then its own code.
ghost use Rattle.std.specs.Prelude.{◌≡◌, ◌∷◌, ◌++◌, ◌+◌, ◌≤◌, length, drop};
ghost use Rattle.low_bytes.specs.LowBytes.{low_bytes};
ghost use Rattle.pool.specs.Tables.{nodes};
ghost use Rattle.key_strip.specs.Strip.{own_key, strip_of};
ghost use Rattle.strip_write.specs.Written.{strip_below, WrittenFrom};

use pool::{Node, Parts, Tables};

// A code and the k lowest bytes of what follows it; the place after them is the answer, here and below.
fn put_key(out: &mut [u8], at: usize, code: u8, k: usize, x: u64) -> usize
    requires { at + (k + 1) ≤ length out.old }
    ensures { WrittenFrom at out.old (code ∷ low_bytes k x) result out.new }
{
    out[at] = code;
    low_bytes::put_bytes(out, at + 1, k, x);
    at + 1 + k
}

// A node's own code and what follows it: 16, 64 or 32 bits, or nothing.
fn put_own(out: &mut [u8], at: usize, node: Node) -> usize
    requires { at + length (own_key node) ≤ length out.old }
    ensures { WrittenFrom at out.old (own_key node) result out.new }
{
    let code = node.kind();
    match node {
        Node::Variable(v) => put_key(out, at, code, 2, v as u64),
        Node::Lit(z) => put_key(out, at, code, 8, literal::to_word(z)),
        Node::Pow(_, e) => put_key(out, at, code, 4, e as u64),
        _ => put_key(out, at, code, 0, 0),
    }
}

// The strip of a part whose number is below the bound: its left part, its right part, then its own code. Any other part has no strip.
fn strip_below(tables: Tables<'_>, out: &mut [u8], at: usize, bound: usize, of: u32) -> usize
    requires { at + length (strip_below (nodes tables) bound of) ≤ length out.old }
    ensures { WrittenFrom at out.old (strip_below (nodes tables.entry) bound of) result out.new }
{
    let i = of as usize;
    if bound <= i {
        return at;
    }
    let node = tables.node(of);
    let own = match node.parts() {
        Parts::None => at,
        Parts::One(a) => strip_below(tables, out, at, i, a),
        Parts::Two(a, b) => {
            let past_left = strip_below(tables, out, at, i, a);
            strip_below(tables, out, past_left, i, b)
        }
    };
    put_own(out, own, node)
}

// The strip of a root, from the front of an output that has room for it.
#[tactic(auto, using(crate::proofs::Writing::room_for_all, crate::proofs::Writing::all_written))]
pub fn strip_into(tables: Tables<'_>, root: u32, out: &mut [u8])
    requires { length (strip_of (nodes tables) root) ≤ length out.old }
    ensures { out.new ≡ strip_of (nodes tables.entry) root ++ drop (length (strip_of (nodes tables.entry) root)) out.old }
{
    strip_below(tables, out, 0, root as usize + 1, root);
}
