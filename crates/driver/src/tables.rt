// A set that answers by a table.
ghost use Rattle.std.specs.Prelude.{◌≡◌, Bool, slice_index_or};
ghost use Rattle.driver.specs.Tables.{row_of, no_group, table_answers};

use crate::held::TableSet;
use crate::reading::{effect_of, known_empty_of};
use crate::row_types::{GroupRow, OperatorRow};
use operators::{
    CardinalityEffect, KnownEmpty, LimitsPass, OperatorSet, PartitionCount, WindowExpr,
};
use plan::Kind;

/// What is read past the end of the groups.
const NO_GROUP: GroupRow = GroupRow {
    group: 0,
    plain: false,
};

impl TableSet<'_> {
    /// The first row of a kind, if there is one.
    fn row(&self, kind: u8) -> Option<OperatorRow>
        ensures { result ≡ row_of self.now.operators.now kind }
    {
        self.operators.iter().find(|row| row.kind == kind).copied()
    }

    /// The row of an aggregate's parameter; past the end group 0, and not plain.
    fn group_row(&self, parameter: u32) -> GroupRow
        ensures { result ≡ slice_index_or self.now.groups.now parameter no_group }
    {
        self.groups
            .get(parameter as usize)
            .copied()
            .unwrap_or(NO_GROUP)
    }
}

impl OperatorSet for TableSet<'_> {
    ghost answers = { λ s. table_answers s.operators.now s.exprs.now s.width s.groups.now };

    fn fits(&self, kind: u8, _parameter: u32, children: u8) -> bool {
        match Kind::from(kind) {
            Kind::Operator(kind) => self
                .row(kind)
                .is_some_and(|row| (row.least..=row.most).contains(&children)),
            _ => true,
        }
    }

    fn limits_pass(&self, kind: u8, _parameter: u32) -> LimitsPass {
        match self.row(kind) {
            Some(row) if row.passes => LimitsPass::RowForRow,
            _ => LimitsPass::No,
        }
    }

    fn takes_fetch(&self, kind: u8, _parameter: u32) -> bool {
        self.row(kind).is_some_and(|row| row.fetch)
    }

    fn takes_mark(&self, kind: u8, _parameter: u32) -> bool {
        self.row(kind).is_some_and(|row| row.mark)
    }

    fn effect(&self, kind: u8, _parameter: u32) -> CardinalityEffect {
        self.row(kind)
            .map_or(CardinalityEffect::Unknown, |row| effect_of(row.effect))
    }

    fn partitions(&self, kind: u8, _parameter: u32) -> PartitionCount {
        match self.row(kind) {
            Some(row) if row.fixed => PartitionCount::Fixed(row.partitions),
            _ => PartitionCount::Sum,
        }
    }

    fn known_empty(&self, kind: u8, _parameter: u32) -> KnownEmpty {
        self.row(kind)
            .map_or(KnownEmpty::Never, |row| known_empty_of(row.known_empty))
    }

    fn window(&self, parameter: u32) -> &[WindowExpr] {
        let first = parameter as usize * self.width;
        match self.exprs.get(first..first + self.width) {
            Some(window) => window,
            None => WindowExpr::UNKNOWN,
        }
    }

    fn group(&self, parameter: u32) -> u32 {
        self.group_row(parameter).group
    }

    fn plain_distinct(&self, parameter: u32) -> bool {
        self.group_row(parameter).plain
    }
}
