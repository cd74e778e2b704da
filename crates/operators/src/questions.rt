// The answers for every kind of cell: those for the kinds below 16 stand here, and here alone.
ghost use Rattle.std.specs.Prelude.{◌≡◌, ◌+◌, ◌^◌, ◌≤◌};
ghost use Rattle.operators.specs.Questions.{fits_of, passes_limits, takes_fetch, takes_mark, effect_of, count_by, partitions_of, empty_by, empty_of};

use super::{CardinalityEffect, KnownEmpty, LimitsPass, OperatorSet, PartitionCount};
use plan::{Cell, Kind, MAX_CHILDREN, MAX_PARAMETER};

impl PartitionCount {
    fn of_total(self, total: u64) -> u64
        ensures value { result ≡ count_by self total }
        ensures bound { result ≤ total + 2 ^ 32 }
    {
        match self {
            PartitionCount::Sum => total,
            PartitionCount::Fixed(n) => u64::from(n),
        }
    }
}

impl KnownEmpty {
    fn of_all(self, all: bool) -> bool
        ensures { result ≡ empty_by self all }
    {
        match self {
            KnownEmpty::Never => false,
            KnownEmpty::Always => true,
            KnownEmpty::IfAllChildren => all,
        }
    }
}

/// Whether its parameter and its child count fit its kind.
pub fn fits<O: OperatorSet>(set: &O, cell: &Cell) -> bool
    ensures { result ≡ fits_of (O.OperatorSet.answers set.now) cell.now.kind cell.now.parameter cell.now.children }
{
    if cell.children > MAX_CHILDREN || cell.parameter > MAX_PARAMETER {
        return false;
    }
    match Kind::from(cell.kind) {
        Kind::Empty | Kind::PlaceholderRow => cell.children == 0 && cell.parameter == 0,
        Kind::GlobalLimit | Kind::LocalLimit | Kind::CoalescePartitions => {
            cell.children == 1 && cell.parameter == 0
        }
        Kind::Projection
        | Kind::SortPreservingMerge
        | Kind::Sort
        | Kind::BoundedWindowAgg
        | Kind::Aggregate => cell.children == 1
            && set.fits(cell.kind, cell.parameter, cell.children),
        Kind::Reserved(_) => false,
        Kind::Operator(_) => set.fits(cell.kind, cell.parameter, cell.children),
    }
}

/// Whether a limit above may go below.
pub fn passes_limits<O: OperatorSet>(set: &O, cell: &Cell) -> bool
    ensures { result ≡ passes_limits (O.OperatorSet.answers set.now) cell.now.kind cell.now.parameter }
{
    match Kind::from(cell.kind) {
        Kind::Projection | Kind::CoalescePartitions | Kind::SortPreservingMerge => true,
        Kind::Operator(_) => set.limits_pass(cell.kind, cell.parameter) == LimitsPass::RowForRow,
        _ => false,
    }
}

/// Whether it can keep a fetch of its own.
pub fn takes_fetch<O: OperatorSet>(set: &O, cell: &Cell) -> bool
    ensures { result ≡ takes_fetch (O.OperatorSet.answers set.now) cell.now.kind cell.now.parameter }
{
    match Kind::from(cell.kind) {
        Kind::GlobalLimit
        | Kind::LocalLimit
        | Kind::CoalescePartitions
        | Kind::SortPreservingMerge
        | Kind::Sort => true,
        Kind::Operator(_) => set.takes_fetch(cell.kind, cell.parameter),
        _ => false,
    }
}

/// Whether it can carry a mark.
pub fn takes_mark<O: OperatorSet>(set: &O, cell: &Cell) -> bool
    ensures { result ≡ takes_mark (O.OperatorSet.answers set.now) cell.now.kind cell.now.parameter }
{
    match Kind::from(cell.kind) {
        Kind::GlobalLimit | Kind::LocalLimit => true,
        Kind::Operator(_) => set.takes_mark(cell.kind, cell.parameter),
        _ => false,
    }
}

/// How many rows it gives, held against how many it reads.
pub fn effect<O: OperatorSet>(set: &O, cell: &Cell) -> CardinalityEffect
    ensures { result ≡ effect_of (O.OperatorSet.answers set.now) cell.now.kind cell.now.parameter }
{
    match Kind::from(cell.kind) {
        Kind::Projection | Kind::CoalescePartitions | Kind::SortPreservingMerge => {
            CardinalityEffect::Equal
        }
        Kind::Operator(_) => set.effect(cell.kind, cell.parameter),
        _ => CardinalityEffect::Unknown,
    }
}

/// How many partitions it has, if its children have `total` in all.
pub fn partitions<O: OperatorSet>(set: &O, cell: &Cell, total: u64) -> u64
    ensures value { result ≡ partitions_of (O.OperatorSet.answers set.now) cell.now.kind cell.now.parameter total }
    ensures bound { result ≤ total + 2 ^ 32 }
{
    match Kind::from(cell.kind) {
        Kind::Empty
        | Kind::PlaceholderRow
        | Kind::GlobalLimit
        | Kind::CoalescePartitions
        | Kind::SortPreservingMerge => 1,
        Kind::Operator(_) => set.partitions(cell.kind, cell.parameter).of_total(total),
        _ => total,
    }
}

/// Whether it is known to give no rows, if `all` says whether all its children are.
pub fn known_empty<O: OperatorSet>(set: &O, cell: &Cell, all: bool) -> bool
    ensures { result ≡ empty_of (O.OperatorSet.answers set.now) cell.now.kind cell.now.parameter all }
{
    match Kind::from(cell.kind) {
        Kind::Empty => true,
        Kind::PlaceholderRow | Kind::Aggregate => false,
        Kind::Operator(_) => set.known_empty(cell.kind, cell.parameter).of_all(all),
        _ => all,
    }
}
