// Which rule of `add` holds: the pool is read, and nothing is made.
ghost use Rattle.std.specs.Prelude.{◌≡◌};
ghost use Rattle.constructors.specs.Terms.{skip};
ghost use Rattle.constructors.specs.Patterns.{lit_in, add_in};
ghost use Rattle.constructors.specs.Tables.{add_table};
ghost use Rattle.pool.specs.Pool.{node_at};
ghost use Rattle.pool.specs.declared.node.Node.TheVariants.{Lit, Add};
ghost use Rattle.adds.specs.Rule.{add_term};

use pool::{Node, Pool};

// What is to be built, a term of the definition's table. It is found first and then built, since the pool is only read while the rule is sought. Numbers of nodes are u32, literals i64.
#[derive(Clone, Copy)]
pub enum AddRule {
    // the node itself
    Same(u32),
    // lit(x + y)
    Sum(i64, i64),
    // add(b, lit(x + y))
    Onto(u32, i64, i64),
    // the plain node Add(a, b)
    Plain(u32, u32),
    // add(add(a, c), lit(x + y))
    Sums(u32, u32, i64, i64),
    // add(add(a, b), c)
    Chain(u32, u32, u32),
}

#[tactic(auto, using(views::proofs::Missed::lit_missed, views::proofs::Missed::add_missed))]
pub fn add_rule(pool: &Pool, lhs: u32, rhs: u32) -> AddRule
    ensures { add_term result ≡ add_table (node_at pool.now) lhs rhs }
{
    match pool.node(lhs) {
        Node::Lit(a) => lit_rule(pool, lhs, rhs, a),
        Node::Add(a, b) => Sum { pool, lhs, a, b }.beside(rhs),
        _ => other_rule(pool, lhs, rhs),
    }
}

// On the left is Lit(a).
#[tactic(auto, using(views::proofs::Missed::lit_missed, views::proofs::Missed::add_missed, crate::proofs::Rules::zero_on_left, crate::proofs::Rules::zero_on_lit, crate::proofs::Rules::two_lits, crate::proofs::Rules::lit_onto_sum, crate::proofs::Rules::lit_beside_sum, crate::proofs::Rules::lit_beside))]
fn lit_rule(pool: &Pool, lhs: u32, rhs: u32, a: i64) -> AddRule
    requires left { node_at pool.now lhs ≡ Lit a }
    ensures { add_term result ≡ add_table (node_at pool.now) lhs rhs }
{
    if literal::is_zero(a) {
        return AddRule::Same(rhs);
    }
    match pool.node(rhs) {
        Node::Lit(b) if literal::is_zero(b) => AddRule::Same(lhs),
        Node::Lit(b) => AddRule::Sum(a, b),
        Node::Add(b, part) => match views::literal_at(pool, part) {
            Some(y) => AddRule::Onto(b, a, y),
            None => AddRule::Plain(rhs, lhs),
        },
        _ => AddRule::Plain(lhs, rhs),
    }
}

// The node on the left, where it is the sum of a and b.
#[derive(Clone, Copy)]
struct Sum<'a> {
    pool: &'a Pool,
    lhs: u32,
    a: u32,
    b: u32,
    ghost is_sum: { node_at pool.now lhs ≡ Add a b },
}

impl<'a> Sum<'a> {
    // On the right is any node.
    #[tactic(auto, using(views::proofs::Missed::lit_missed, views::proofs::Missed::add_missed, crate::proofs::Rules::sum_beside))]
    fn beside(self, rhs: u32) -> AddRule
        ensures { add_term result ≡ add_table (node_at self.entry.pool.now) self.entry.lhs rhs }
    {
        match self.pool.node(rhs) {
            Node::Lit(l) => self.beside_lit(rhs, l),
            Node::Add(c, d) => self.beside_sum(rhs, c, d),
            _ => AddRule::Plain(self.lhs, rhs),
        }
    }

    // On the right is Lit(l).
    #[tactic(auto, using(crate::proofs::Rules::zero_on_sum, crate::proofs::Rules::sum_onto_lit, crate::proofs::Rules::sum_beside_lit))]
    fn beside_lit(self, rhs: u32, l: i64) -> AddRule
        requires { node_at self.pool.now rhs ≡ Lit l }
        ensures { add_term result ≡ add_table (node_at self.entry.pool.now) self.entry.lhs rhs }
    {
        if literal::is_zero(l) {
            return AddRule::Same(self.lhs);
        }
        match views::literal_at(self.pool, self.a) {
            Some(x) => AddRule::Onto(self.b, l, x),
            None => AddRule::Plain(self.lhs, rhs),
        }
    }

    // On the right is Add(c, d).
    #[tactic(auto, using(crate::proofs::Rules::lits_of_sums, crate::proofs::Rules::lit_of_left, crate::proofs::Rules::lit_of_right, crate::proofs::Rules::no_lits))]
    fn beside_sum(self, rhs: u32, c: u32, d: u32) -> AddRule
        requires { node_at self.pool.now rhs ≡ Add c d }
        ensures { add_term result ≡ add_table (node_at self.entry.pool.now) self.entry.lhs rhs }
    {
        match views::literal_at(self.pool, self.b) {
            Some(x) => match views::literal_at(self.pool, d) {
                Some(y) => AddRule::Sums(self.a, c, x, y),
                None => AddRule::Chain(self.a, rhs, self.b),
            },
            None => match views::literal_at(self.pool, d) {
                Some(_) => AddRule::Chain(self.lhs, c, d),
                None => AddRule::Plain(self.lhs, rhs),
            },
        }
    }
}

// On the left is neither a literal nor a sum.
#[tactic(auto, using(views::proofs::Missed::lit_missed, crate::proofs::Rules::zero_on_other, crate::proofs::Rules::beside_lit, crate::proofs::Rules::beside))]
fn other_rule(pool: &Pool, lhs: u32, rhs: u32) -> AddRule
    requires no_literal { lit_in (node_at pool.now lhs) ≡ skip }
    requires no_sum { add_in (node_at pool.now lhs) ≡ skip }
    ensures { add_term result ≡ add_table (node_at pool.now) lhs rhs }
{
    match pool.node(rhs) {
        Node::Lit(b) if literal::is_zero(b) => AddRule::Same(lhs),
        _ => AddRule::Plain(lhs, rhs),
    }
}
