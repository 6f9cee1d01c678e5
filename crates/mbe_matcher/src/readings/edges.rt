// The steps of a match as edges between nodes. A node is a number: it stands for a state of the
// pattern at an offset of the argument.

#[derive(Clone, Copy)]
pub(crate) struct Edge {
    pub(crate) source: usize,
    pub(crate) target: usize,
}

// The steps from a node to other nodes: two at most. The node stands for the state `number` at the
// offset.
#[derive(Clone, Copy)]
pub(crate) struct NodeSteps {
    pub(crate) offset: usize,
    pub(crate) number: usize,
    pub(crate) source: usize,
    pub(crate) one: Option<usize>,
    pub(crate) other: Option<usize>,
}
