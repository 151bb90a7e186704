// How many places and bytes the strip of a root needs: what each node up to the root needs is kept in two tables, the smaller numbers first.
ghost use Rattle.std.specs.Prelude.{◌≡◌, ◌<◌, ◌≤◌, length};
ghost use Rattle.pool.specs.Pool.{limit};
ghost use Rattle.pool.specs.Tables.{nodes};
ghost use Rattle.key_strip.specs.Strip.{own_key};
ghost use Rattle.strip_write.specs.Need.{Needed};
ghost use Rattle.strip_write.specs.Kept.{Kept, NeededBelow};

use key_strip::PLACES;
use low_bytes::TEXT_MAX;
use pool::{LIMIT, Node, Parts, Tables};

// Where counting stops: one more than there are places, and than a strip has bytes.
const PAST_PLACES: u32 = PLACES + 1;

const PAST_LONGEST: u32 = TEXT_MAX as u32 + 1;

// What a strip needs.
#[derive(Clone, Copy, Debug, PartialEq, Eq)]
pub struct Need {
    pub places: u32,
    pub length: u32,
}

// How many bytes a node's own code and what follows it have. `put_own` has the widths beside what it writes: a function for both would give `put_key` a width
// that is not known where it is called.
fn own_length(node: Node) -> u32
    ensures { result ≡ length (own_key node) }
{
    match node {
        Node::Variable(_) => 3,
        Node::Lit(_) => 9,
        Node::Pow(_, _) => 5,
        _ => 1,
    }
}

// What the nodes up to a number need. Two tables, since a table of `Need` takes eight bytes a node and not five: clearing it slows the strips of small expressions.
#[derive(Drop)]
struct Needs {
    places: [u8; LIMIT],
    lengths: [u32; LIMIT],
}

impl Needs {
    // What the tables have of a part of node i; a part that is not smaller has no strip.
    #[tactic(auto, unfolding(pool::specs::Fold::under))]
    fn of(&self, i: u32, a: u32) -> Need
        requires { i ≤ limit }
        ensures { Kept self.now i a result }
    {
        if a < i {
            let at = a as usize;
            return Need {
                places: u32::from(self.places[at]),
                length: self.lengths[at],
            };
        }
        Need {
            places: 0,
            length: 0,
        }
    }

    // What node i needs, by what its parts need: a right part runs above the left one's value.
    fn of_node(&self, tables: Tables<'_>, i: u32) -> Need
        requires i_lt_limit { i < limit }
        requires needed_below { NeededBelow (nodes tables) i self.now }
        ensures { Needed (nodes tables.entry) i result }
    {
        let node = tables.node(i);
        let own = own_length(node);
        match node.parts() {
            Parts::None => Need {
                places: 1,
                length: own,
            },
            Parts::One(a) => {
                let base = self.of(i, a);
                Need {
                    places: base.places,
                    length: (base.length + own).min(PAST_LONGEST),
                }
            }
            Parts::Two(a, b) => {
                let left = self.of(i, a);
                let right = self.of(i, b);
                let most = left.places.max(right.places + 1);
                Need {
                    places: most.min(PAST_PLACES),
                    length: (left.length + right.length + own).min(PAST_LONGEST),
                }
            }
        }
    }

    // The nodes before a number, the smaller ones first.
    fn fill(&mut self, tables: Tables<'_>, end: u32)
        requires { end ≤ limit }
        ensures { NeededBelow (nodes tables.entry) end self.new }
    {
        for i in 0..end {
            let need = self.of_node(tables, i);
            self.places[i as usize] = need.places as u8;
            self.lengths[i as usize] = need.length;
        }
    }
}

// What the strip of a root needs: each node is looked at once. Past the tables there is no node, and its strip is one byte.
pub fn need_of(tables: Tables<'_>, root: u32) -> Need
    ensures { Needed (nodes tables.entry) root result }
{
    if LIMIT <= root as usize {
        return Need {
            places: 1,
            length: 1,
        };
    }
    let mut needs = Needs {
        places: [0; LIMIT],
        lengths: [0; LIMIT],
    };
    let end = root + 1;
    needs.fill(tables, end);
    needs.of(end, root)
}
