// A cell is one node of a plan; a plan is a table of cells in prefix order, each node before its children's trees.
ghost use Rattle.std.specs.Prelude.{◌≡◌};
ghost use Rattle.plan.specs.Cells.{node};
ghost use Rattle.plan.specs.Kinds.{number_of_kind};

use super::Kind;

/// The largest skip, fetch, hint or look-ahead.
pub const MAX_NUMBER: u64 = (1 << 40) - 1;

/// The most nodes that a plan may have when a call begins.
pub const MAX_NODES: usize = 4096;

/// The most partitions that a node may have.
pub const MAX_PARTITIONS: u64 = 4096;

/// The most children that a node may have.
pub const MAX_CHILDREN: u8 = 63;

/// The largest parameter.
pub const MAX_PARAMETER: u32 = 32_767;

#[derive(Clone, Copy, PartialEq, Eq, Debug)]
pub struct Cell {
    /// Which operator it is: below 16 one that every plan knows (`Kind`), from 16 on one of the operator set's. A number and no `Kind`, since
    /// any may come in, and a `Kind` would want an invariant against `Operator(3)`.
    pub kind: u8,
    /// How many trees behind this cell are its children's.
    pub children: u8,
    /// Which of the operator set's operators of this kind it is.
    pub parameter: u32,
    /// On a limit its required ordering; elsewhere that the operator keeps an ordering.
    pub mark: bool,
    /// How many first rows are kept, if it is limited.
    pub fetch: Option<u64>,
    /// How many distinct groups suffice, on a distinct aggregate.
    pub hint: Option<u64>,
    /// How many first rows are dropped; above 0 only on a global limit.
    pub skip: u64,
}

impl Cell {
    /// What stands in a table behind its plan: numbers 0, nothing present.
    pub const BLANK: Cell = Cell {
        kind: 0,
        children: 0,
        parameter: 0,
        mark: false,
        fetch: None,
        hint: None,
        skip: 0,
    };

    /// A node of this kind, unmarked and without a fetch, a hint or a skip.
    pub fn new(kind: Kind, children: u8, parameter: u32) -> Cell
        ensures { result ≡ node (number_of_kind kind) children parameter }
    {
        Cell {
            kind: kind.into(),
            children,
            parameter,
            ..Cell::BLANK
        }
    }
}
