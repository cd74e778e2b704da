// What grow knows on its walk over the nodes, each before its children.

/// How far the walk has come. DataFusion has the first two; for the third it stops the traversal, by `TreeNodeRecursion::Stop`.
#[derive(Clone, Copy, PartialEq, Eq, Debug)]
pub enum Phase {
    /// It looks for the lowest limit above the windows.
    FindOrGrow,
    /// It has passed a window since.
    Apply,
    /// A sort or merge got the limit, and every later node stays.
    Ended,
}

/// What grow knows where it reaches a node.
#[derive(Clone, Copy, PartialEq, Eq, Debug)]
pub struct TraverseState {
    pub phase: Phase,
    /// How many first rows the nodes above ask for.
    pub limit: Option<u64>,
    /// How many rows more the windows since then look at.
    pub lookahead: u64,
}

/// What the walk does at a node. What the node becomes, what is pending behind it and which sum it forms are three definitions by these cases.
#[derive(Clone, Copy, PartialEq, Eq, Debug)]
pub enum Turn {
    /// Nothing changes.
    Keep,
    /// The limit is forgotten.
    Reset,
    /// The node's own limit is taken up.
    Find,
    /// A window is passed.
    Grow,
    /// A sort or merge gets the limit.
    Apply,
}
