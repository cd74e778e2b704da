// What sink carries down a plan, and what a visit of a node gives.
use plan::Cell;

/// What is pending where a subtree begins. It bears DataFusion's names.
#[derive(Clone, Copy, PartialEq, Eq, Debug)]
pub struct GlobalRequirements {
    /// How many first rows are still to be dropped.
    pub skip: u64,
    /// How many rows suffice behind those, if they are limited.
    pub fetch: Option<u64>,
    /// Whether what stands above keeps the limit already, so that none has to be added.
    pub satisfied: bool,
    /// The mark of the last limit that was taken out.
    pub preserve_order: bool,
}

impl GlobalRequirements {
    /// What is pending at the root: nothing.
    pub const FIRST: GlobalRequirements = GlobalRequirements {
        skip: 0,
        fetch: None,
        satisfied: false,
        preserve_order: false,
    };
}

/// What a visit of a node gives.
#[derive(Clone, Copy, PartialEq, Eq, Debug)]
pub struct Visited {
    /// The limit that goes above the node, if there is one.
    pub above: Option<Cell>,
    /// The node itself.
    pub node: Cell,
    /// What is pending below.
    pub next: GlobalRequirements,
}
