// What an operator set can answer. Names are those of DataFusion where it has one.

/// Whether limits above an operator may go below it.
#[derive(Clone, Copy, PartialEq, Eq, Debug)]
pub enum LimitsPass {
    No,
    /// Each row is made from the row at the same place.
    RowForRow,
}

/// How many rows an operator gives, held against how many it reads.
#[derive(Clone, Copy, PartialEq, Eq, Debug)]
pub enum CardinalityEffect {
    Unknown,
    LowerEqual,
    Equal,
    GreaterEqual,
}

/// How many partitions an operator has. No `Option`, whose `None` would say less than `Sum`.
#[derive(Clone, Copy, PartialEq, Eq, Debug)]
pub enum PartitionCount {
    /// As many as its children together.
    Sum,
    Fixed(u32),
}

/// When an operator is known to give no rows.
#[derive(Clone, Copy, PartialEq, Eq, Debug)]
pub enum KnownEmpty {
    Never,
    Always,
    /// If each of its children is known to give none.
    IfAllChildren,
}

/// Which rows a window's expression needs beside those of its frame.
#[derive(Clone, Copy, PartialEq, Eq, Debug)]
pub enum LimitEffect {
    None,
    Unknown,
    /// So many rows behind the current one.
    Relative(u64),
    /// So many first rows.
    Absolute(u64),
}

/// What a window's frame counts in.
#[derive(Clone, Copy, PartialEq, Eq, Debug)]
pub enum FrameUnits {
    Rows,
    Other,
}

/// Where a window's frame ends.
#[derive(Clone, Copy, PartialEq, Eq, Debug)]
pub enum FrameBound {
    Preceding,
    CurrentRow,
    Following(u64),
    Other,
}

/// One expression of a window.
#[derive(Clone, Copy, PartialEq, Eq, Debug)]
pub struct WindowExpr {
    pub effect: LimitEffect,
    pub units: FrameUnits,
    pub end_bound: FrameBound,
}

impl WindowExpr {
    /// The window of which nothing is known.
    pub const UNKNOWN: &'static [WindowExpr] = &[WindowExpr {
        effect: LimitEffect::Unknown,
        units: FrameUnits::Other,
        end_bound: FrameBound::Other,
    }];
}
