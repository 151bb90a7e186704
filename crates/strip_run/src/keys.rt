// The keys of a strip, one by one: a code and what follows it.
ghost use Rattle.std.specs.Prelude.{◌≡◌, ◌<◌, ◌^◌, length};
ghost use Rattle.pool.specs.Nodes.{half};
ghost use Rattle.key_strip.specs.Machine.{following, key_of};
ghost use Rattle.strip_run.specs.Keys.{KeyAt};

use pool::{HALF, Node};

// How many bytes follow a code. Codes are the table's kinds by their numbers, as `Node::decode` takes them: an enum of them would be made from the byte by a match
// on the same numbers. The same widths stand in strip_write, by nodes: a node has its kind, and not any byte.
#[tactic(auto, unfolding(key_strip::specs::Machine::following))]
fn following(code: u8) -> usize
    ensures { result ≡ following code }
{
    match code {
        1 => 2,
        2 => 8,
        8 => 4,
        _ => 0,
    }
}

// The key that raises, with an exponent of 32 bits.
#[tactic(auto, unfolding(key_strip::specs::Machine::key_of))]
fn power(x: u64) -> Node
    requires { x < half }
    ensures { result ≡ key_of 8 x }
{
    Node::decode(8, HALF * x)
}

// A code and the number that follows it, as a key: a node whose parts are places, 0 the topmost and 1 the one below it (docs/DECISIONS.md: "A key is a node whose
// parts are places"). `Node::Empty` is no key, as in the definition, which has it among the keys of a strip: an Option in its place would be turned back into it
// by this contract and by each reader of a key.
#[tactic(auto, unfolding(key_strip::specs::Machine::key_of, key_strip::specs::Machine::following, pool::specs::Nodes::decode))]
fn key_of(code: u8, x: u64) -> Node
    requires { x < 256 ^ following code }
    ensures { result ≡ key_of code x }
{
    match code {
        1 => Node::decode(1, x),
        2 => Node::decode(2, x),
        8 => power(x),
        3 => Node::Add(1, 0),
        4 => Node::Mul(1, 0),
        5 => Node::Div(1, 0),
        9 => Node::Max(1, 0),
        _ => Node::Empty,
    }
}

// A key and the place after it.
#[derive(Clone, Copy)]
pub struct Key {
    pub node: Node,
    pub next: usize,
}

// The key at a place of the strip; what is cut off is no key.
#[tactic(auto, using(crate::proofs::Cut::cut_off, crate::proofs::Codes::few_follow, crate::proofs::Cut::number_small, crate::proofs::Cut::found))]
pub fn key_at(strip: &[u8], at: usize) -> Key
    requires { at < length strip.now }
    ensures { KeyAt strip.now at result }
{
    let code = strip[at];
    let k = following(code);
    let from = at + 1;
    let end = strip.len();
    if end - from < k {
        return Key {
            node: Node::Empty,
            next: end,
        };
    }
    let x = low_bytes::number_at(strip, from, k);
    let node = key_of(code, x);
    Key {
        node,
        next: from + k,
    }
}
