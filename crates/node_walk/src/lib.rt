// The writing order of nodes.bin: the walk that numbers the nodes reachable from the roots.
#![tactic(auto)]

ghost use Rattle.std.specs.Prelude.{true, ◌≡◌, ℕ, ◌<◌};
ghost use Rattle.pool.specs.Nodes.{parts};
ghost use Rattle.pool.specs.Pool.{limit};
ghost use Rattle.pool.specs.Tables.{nodes};
ghost use Rattle.shape.specs.Shape.{has};
ghost use Rattle.shape.specs.Order.{numbered};
ghost use Rattle.shape.specs.Demand.{Below};
ghost use Rattle.shape.specs.Walked.{Falls};
ghost use Rattle.node_walk.specs.NewParts.{RenamedBy};
ghost use Rattle.node_walk.specs.Visits.{StandsFor, Stands, Visits, Turns, Fresh, Stored};

use pool::{LIMIT, Node, Parts, Tables};

// Which nodes have a number: number[j] is 0 or j's number + 1, order[m] is the node with number m, and `done` nodes have one.
#[derive(Drop)]
pub struct Numbering {
    pub number: [u32; LIMIT],
    pub order: [u32; LIMIT],
    pub done: u32,
}

// The node with each part's number replaced, as `number` says.
#[tactic(auto, using(crate::proofs::NewParts::renamed_none, crate::proofs::NewParts::renamed_one, crate::proofs::NewParts::renamed_two))]
pub fn renamed<F: Fn(u32) -> u32>(node: Node, number: F) -> Node
    requires { (part : ℕ) → has (parts node) part ≡ true → F.pre number part }
    ensures { RenamedBy (F.post number) node result }
{
    match node.parts() {
        Parts::None => node,
        Parts::One(a) => {
            let only = number(a);
            node.with_parts(only, 0)
        }
        Parts::Two(a, b) => {
            let left = number(a);
            let right = number(b);
            node.with_parts(left, right)
        }
    }
}

impl Numbering {
    // No node has a number.
    pub fn none() -> Numbering
        ensures { Fresh result }
    {
        Numbering {
            number: [0; LIMIT],
            order: [0; LIMIT],
            done: 0,
        }
    }

    // Node i gets the next number.
    fn number_next(&mut self, i: u32)
        requires { (i < limit) × (self.old.done < limit) }
        ensures { Stored self.old i self.new }
    {
        let done = self.done;
        self.order[done as usize] = i;
        self.done = done + 1;
        self.number[i as usize] = self.done;
    }

    // The walk from node i.
    #[cycle(visit)]
    #[tactic(auto, using(crate::proofs::Visiting::visited_before))]
    pub fn visit(&mut self, tables: Tables, i: u32)
        requires i_lt_limit { i < limit }
        requires falls { Falls (nodes tables) }
        requires stands { Stands (nodes tables) self.old }
        ensures { Visits (nodes tables.entry) i self.old self.new }
    {
        if self.number[i as usize] != 0 {
            return;
        }
        self.visit_parts(tables, i);
        self.number_next(i);
    }

    // The walks from the parts of node i, the left one first.
    #[cycle(visit)]
    #[tactic(auto, using(crate::proofs::Visiting::left_is_below, crate::proofs::Visiting::right_is_below, crate::proofs::Visiting::stands_after))]
    fn visit_parts(&mut self, tables: Tables, i: u32)
        requires i_lt_limit { i < limit }
        requires falls { Falls (nodes tables) }
        requires stands { Stands (nodes tables) self.old }
        ensures { Turns (nodes tables.entry) (parts (nodes tables.entry i)) self.old self.new }
    {
        match tables.node(i).parts() {
            Parts::None => {}
            Parts::One(a) => self.visit(tables, a),
            Parts::Two(a, b) => {
                self.visit(tables, a);
                self.visit(tables, b);
            }
        }
    }

    // The walk over the roots in turn.
    #[tactic(auto, using(crate::proofs::Visiting::root_below, crate::proofs::Visiting::all_visited))]
    pub fn number_all(&mut self, tables: Tables, roots: &[u64])
        requires below { Below limit roots.now }
        requires falls { Falls (nodes tables) }
        requires fresh { Fresh self.old }
        ensures { StandsFor (nodes tables.entry) (numbered (nodes tables.entry) roots.now) self.new }
    {
        for root in roots {
            self.visit(tables, *root as u32);
        }
    }
}
