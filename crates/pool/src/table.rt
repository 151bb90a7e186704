// The pool: the two tables with the count, and what is done with them: reading a node, appending one.
ghost use Rattle.std.specs.Prelude.{◌≡◌};
ghost use Rattle.pool.specs.Pool.{node_at, empty, append};
ghost use Rattle.pool.specs.Tables.{nodes};
ghost use Rattle.pool.specs.Made.{made};
ghost use Rattle.pool.specs.Room.{room_of, RoomKept};
ghost use Rattle.pool.specs.WordHalves.{left_in, right_in};

use crate::node::{HALF, Node};
use refusals::Refusal;

// How many nodes a pool holds at most.
pub const LIMIT: usize = 4096;

// Both tables of a pool that is only read, as they lie where they are lent.
#[derive(Clone, Copy)]
pub struct Tables<'a> {
    pub kinds: &'a [u8; LIMIT],
    pub words: &'a [u64; LIMIT],
}

impl<'a> Tables<'a> {
    // The node at a number.
    #[tactic(auto, unfolding(crate::specs::Pool::node_in))]
    pub fn node(self, i: u32) -> Node
        ensures { result ≡ nodes self.entry i }
    {
        let at = i as usize;
        let (kinds, words) = (self.kinds, self.words);
        match (kinds.get(at), words.get(at)) {
            (Some(kind), Some(word)) => Node::decode(*kind, *word),
            _ => Node::Empty,
        }
    }

    // The low half of the word at a number: the left of two parts, or the base of a Pow. Read from the table, since a node made by value is stored in pieces and
    // read back whole, which a processor waits for.
    pub fn left(self, i: u32) -> u32
        ensures { result ≡ left_in self.entry.words.now i }
    {
        let words = self.words;
        words.get(i as usize).map_or(0, |word| (word % HALF) as u32)
    }

    // The high half: the right of two parts, or the exponent of a Pow.
    pub fn right(self, i: u32) -> u32
        ensures { result ≡ right_in self.entry.words.now i }
    {
        let words = self.words;
        words.get(i as usize).map_or(0, |word| (word / HALF) as u32)
    }
}

// Both tables, the number of the next node, and the number at which there is no room. Two tables and node numbers, not a list of nodes or boxes: the C interface lends
// the pool in this form, and there is no heap.
#[derive(Drop)]
pub struct Pool {
    pub kinds: [u8; LIMIT],
    pub words: [u64; LIMIT],
    pub count: u32,
    pub end: u32,
}

// The room of a pool: where the next node goes, and where there is none.
#[derive(Clone, Copy)]
pub struct Room {
    pub count: u32,
    pub end: u32,
}

impl Pool {
    // A pool of no nodes, with room for as many as there can be.
    #[tactic(auto, unfolding(crate::specs::Pool::empty))]
    pub fn empty() -> Pool
        ensures { result ≡ empty }
    {
        Pool {
            kinds: [0; LIMIT],
            words: [0; LIMIT],
            count: 0,
            end: LIMIT as u32,
        }
    }

    // Its tables, to be read.
    pub fn tables(&self) -> Tables<'_>
        ensures kinds { result.kinds.now ≡ self.now.kinds }
        ensures words { result.words.now ≡ self.now.words }
    {
        Tables {
            kinds: &self.kinds,
            words: &self.words,
        }
    }

    // The node at a number.
    pub fn node(&self, i: u32) -> Node
        ensures { result ≡ node_at self.now i }
    {
        self.tables().node(i)
    }

    // One node more: its number.
    #[tactic(auto, unfolding(crate::specs::Pool::append))]
    pub fn append(&mut self, node: Node) -> Result<u32, Refusal>
        ensures is { made result self.new ≡ append node self.old }
        ensures room { RoomKept result (room_of self.old) self.new }
    {
        let count = self.count;
        let at = count as usize;
        if self.end <= count || LIMIT <= at {
            return Err(Refusal::PoolFull);
        }
        self.kinds[at] = node.kind();
        self.words[at] = node.word();
        self.count = count + 1;
        Ok(count)
    }
    // Its room, to be put back where what is made is refused.
    pub fn room(&self) -> Room
        ensures { result ≡ room_of self.now }
    {
        Room {
            count: self.count,
            end: self.end,
        }
    }

    // What was made is handed on. Where it was refused, the room from before it is put back, so that the next node gets the number that it would have got.
    pub fn settle<T>(&mut self, room: Room, res: Result<T, Refusal>) -> Result<T, Refusal>
        ensures is { made result self.new ≡ made res self.old }
        ensures room { RoomKept result room self.new }
    {
        if res.is_err() {
            self.count = room.count;
            self.end = room.end;
        }
        res
    }
}
