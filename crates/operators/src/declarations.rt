// What a declared set is told of its kinds.
use super::CardinalityEffect;

/// How a declared operator stands to its children.
#[derive(Clone, Copy, PartialEq, Eq, Debug)]
pub enum Shape {
    /// No children.
    Source { partitions: u32 },
    /// 1 to 63 children; limits pass.
    RowForRow,
    /// One child, whose partitions it keeps apart.
    EachPartition,
    /// 1 to 63 children.
    Gathering { partitions: u32 },
}

/// What is declared of one kind.
#[derive(Clone, Copy, PartialEq, Eq, Debug)]
pub struct Declaration {
    pub kind: u8,
    pub shape: Shape,
    /// Whether it takes a fetch.
    pub fetch: bool,
    /// Whether it takes a mark.
    pub mark: bool,
    pub effect: CardinalityEffect,
}
