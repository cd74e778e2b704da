// Rows as C hands them over: enums cross as numbers, which `reading` reads.

/// What a table says of one kind, whatever its parameter.
#[repr(C)]
#[derive(Clone, Copy, PartialEq, Eq, Debug)]
pub struct OperatorRow {
    pub kind: u8,
    /// The fewest children that fit.
    pub least: u8,
    /// The most children that fit.
    pub most: u8,
    /// Whether limits pass, row for row.
    pub passes: bool,
    /// Whether it takes a fetch.
    pub fetch: bool,
    /// Whether it takes a mark.
    pub mark: bool,
    pub effect: u8,
    pub known_empty: u8,
    /// Whether its partitions are a fixed number, and not its children's sum.
    pub fixed: bool,
    pub partitions: u32,
}

/// One expression of a window.
#[repr(C)]
#[derive(Clone, Copy, PartialEq, Eq, Debug)]
pub struct ExprRow {
    pub effect: u8,
    pub effect_number: u64,
    pub units: u8,
    pub end: u8,
    pub end_number: u64,
}

/// What a table says of the aggregates of one parameter.
#[repr(C)]
#[derive(Clone, Copy, PartialEq, Eq, Debug)]
pub struct GroupRow {
    pub group: u32,
    /// Whether it is plain distinct.
    pub plain: bool,
}

/// A declaration of one kind.
#[repr(C)]
#[derive(Clone, Copy, PartialEq, Eq, Debug)]
pub struct DeclarationRow {
    pub kind: u8,
    pub shape: u8,
    pub fetch: bool,
    pub mark: bool,
    pub effect: u8,
    pub number: u32,
}
