// A node by value, and its kind and word in the pool: the table of kinds of document 01.
ghost use Rattle.std.specs.Prelude.{◌≡◌, ℕ};
ghost use Rattle.pool.specs.Nodes.{decode, kind_of, word_of, parts, pair};
ghost use Rattle.pool.specs.Parts.{parts_in, Counted, with_parts};

use crate::parts::{CountedParts, Parts};

// The greatest variable number, and the least exponent of a Pow.
pub const VARIABLE_MAX: u64 = 65_535;

pub const EXPONENT_MIN: u32 = 2;

// Half a word: what a node number or an exponent has.
pub const HALF: u64 = 0x1_0000_0000;

// An unfolded node; parts are node numbers. Empty stands for what is no node: the tables have kind 0 for it, so it is a kind among the others and no Option.
#[derive(Clone, Copy)]
pub enum Node {
    Empty,
    Variable(u32),
    Lit(i64),
    Add(u32, u32),
    Mul(u32, u32),
    Div(u32, u32),
    Exp(u32),
    Log(u32),
    Pow(u32, u32),
    Max(u32, u32),
}

// Two numbers of 32 bits in one word.
fn joined(left: u32, right: u32) -> u64
    ensures { result ≡ pair left right }
{
    (left as u64) + HALF * (right as u64)
}

impl Node {
    // The node of a kind and a word. Guards at the arms would be shorter, but were tried: the compiler makes a chain of comparisons of them, and a product took a
    // twelfth more instructions.
    #[tactic(auto, unfolding(crate::specs::Nodes::decode))]
    pub fn decode(kind: u8, word: u64) -> Node
        ensures { result ≡ decode kind word }
    {
        let low = (word % HALF) as u32;
        let high = (word / HALF) as u32;
        let z = literal::from_word(word);
        match kind {
            1 => if word <= VARIABLE_MAX {
                Node::Variable(word as u32)
            } else {
                Node::Empty
            },
            2 => if literal::is_literal(z) {
                Node::Lit(z)
            } else {
                Node::Empty
            },
            3 => Node::Add(low, high),
            4 => Node::Mul(low, high),
            5 => Node::Div(low, high),
            6 => if word < HALF {
                Node::Exp(word as u32)
            } else {
                Node::Empty
            },
            7 => if word < HALF {
                Node::Log(word as u32)
            } else {
                Node::Empty
            },
            8 => if EXPONENT_MIN <= high {
                Node::Pow(low, high)
            } else {
                Node::Empty
            },
            9 => Node::Max(low, high),
            _ => Node::Empty,
        }
    }

    pub fn kind(self) -> u8
        ensures { result ≡ kind_of self }
    {
        match self {
            Node::Empty => 0,
            Node::Variable(_) => 1,
            Node::Lit(_) => 2,
            Node::Add(_, _) => 3,
            Node::Mul(_, _) => 4,
            Node::Div(_, _) => 5,
            Node::Exp(_) => 6,
            Node::Log(_) => 7,
            Node::Pow(_, _) => 8,
            Node::Max(_, _) => 9,
        }
    }

    pub fn word(self) -> u64
        ensures { result ≡ word_of self }
    {
        match self {
            Node::Empty => 0,
            Node::Variable(v) => v as u64,
            Node::Lit(z) => literal::to_word(z),
            Node::Exp(a) | Node::Log(a) => a as u64,
            Node::Add(a, b)
            | Node::Mul(a, b)
            | Node::Div(a, b)
            | Node::Pow(a, b)
            | Node::Max(a, b) => joined(a, b),
        }
    }

    // Its parts, the left or only part first.
    pub fn parts(self) -> Parts
        ensures { parts_in result ≡ parts self }
    {
        match self {
            Node::Empty | Node::Variable(_) | Node::Lit(_) => Parts::None,
            Node::Exp(a) | Node::Log(a) | Node::Pow(a, _) => Parts::One(a),
            Node::Add(a, b) | Node::Mul(a, b) | Node::Div(a, b) | Node::Max(a, b) => Parts::Two(
                a, b,
            ),
        }
    }

    // Its parts and how many they are: see CountedParts. A part that a node does not have is 0.
    pub fn counted_parts(self) -> CountedParts
        ensures { Counted (parts self) result }
    {
        match self.parts() {
            Parts::None => CountedParts {
                count: 0,
                left: 0,
                right: 0,
            },
            Parts::One(a) => CountedParts {
                count: 1,
                left: a,
                right: 0,
            },
            Parts::Two(a, b) => CountedParts {
                count: 2,
                left: a,
                right: b,
            },
        }
    }

    // The node with other parts; a node with one part takes the left one.
    pub fn with_parts(self, left: u32, right: u32) -> Node
        ensures { result ≡ with_parts self left right }
    {
        match self {
            Node::Empty | Node::Variable(_) | Node::Lit(_) => self,
            Node::Add(_, _) => Node::Add(left, right),
            Node::Mul(_, _) => Node::Mul(left, right),
            Node::Div(_, _) => Node::Div(left, right),
            Node::Exp(_) => Node::Exp(left),
            Node::Log(_) => Node::Log(left),
            Node::Pow(_, n) => Node::Pow(left, n),
            Node::Max(_, _) => Node::Max(left, right),
        }
    }
}
