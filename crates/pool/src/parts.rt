// What a node's parts are told as: see Node::parts and Node::counted_parts.

// A node's parts, the left or only part first.
#[derive(Clone, Copy)]
pub enum Parts {
    None,
    One(u32),
    Two(u32, u32),
}

// The parts of a node and how many they are, for a walk that calls itself. With `Parts` it would call itself in two arms; by a count it does so at one place, in
// a loop, and a level of the walk then takes the least of the stack.
#[derive(Clone, Copy)]
pub struct CountedParts {
    pub count: u32,
    pub left: u32,
    pub right: u32,
}
