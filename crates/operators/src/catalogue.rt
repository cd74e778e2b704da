// The set of the hoard catalogue: scans, filters, unions and repartitions, six windows, and aggregates by their group.
ghost use Rattle.std.specs.Prelude.{◌≡◌};
ghost use Rattle.operators.specs.Catalogue.{catalogue, catalogue_source};
ghost use Rattle.operators.specs.Stored.{Shows};

use super::{
    CardinalityEffect, FrameBound, FrameUnits, KnownEmpty, LimitEffect, LimitsPass, OperatorSet,
    PartitionCount, WindowExpr,
};
use plan::Kind;

/// The operators of the hoard catalogue.
#[derive(Clone, Copy, PartialEq, Eq, Debug)]
pub struct CatalogueSet;

impl CatalogueSet {
    // Numbers, as a cell's kind is one. They are patterns: `Kind::Operator(CatalogueSet::SCAN)`.
    /// Reads a column file of as many partitions as its parameter says.
    pub const SCAN: u8 = 16;

    pub const FILTER: u8 = 17;

    pub const UNION: u8 = 18;
    /// Spreads rows over as many partitions as its parameter says.
    pub const REPARTITION: u8 = 20;

    /// Shows the rules for all stored data: any rows in the scans, and any making of rows by the other operators that the rules
    /// allow; and for every choice of rows in the scans there are such data.
    pub fn shows(&self)
        ensures { Shows catalogue catalogue_source }
    {}

    /// The windows by their parameters.
    const WINDOWS: &'static [&'static [WindowExpr]] = &[
        &[WindowExpr {
            effect: LimitEffect::None,
            units: FrameUnits::Rows,
            end_bound: FrameBound::CurrentRow,
        }],
        &[WindowExpr {
            effect: LimitEffect::None,
            units: FrameUnits::Rows,
            end_bound: FrameBound::Following(3),
        }],
        &[WindowExpr {
            effect: LimitEffect::Relative(2),
            units: FrameUnits::Rows,
            end_bound: FrameBound::Following(1),
        }],
        &[WindowExpr {
            effect: LimitEffect::None,
            units: FrameUnits::Other,
            end_bound: FrameBound::CurrentRow,
        }],
        &[WindowExpr {
            effect: LimitEffect::Absolute(3),
            units: FrameUnits::Rows,
            end_bound: FrameBound::CurrentRow,
        }],
        &[
            WindowExpr {
                effect: LimitEffect::None,
                units: FrameUnits::Rows,
                end_bound: FrameBound::Following(3),
            },
            WindowExpr {
                effect: LimitEffect::Relative(2),
                units: FrameUnits::Rows,
                end_bound: FrameBound::Preceding,
            },
        ],
    ];
}

impl OperatorSet for CatalogueSet {
    ghost answers = { λ _. catalogue };

    fn fits(&self, kind: u8, parameter: u32, children: u8) -> bool {
        match Kind::from(kind) {
            Kind::BoundedWindowAgg => (parameter as usize) < Self::WINDOWS.len(),
            Kind::Operator(Self::SCAN) => children == 0 && (1..=64).contains(&parameter),
            Kind::Operator(Self::FILTER) => children == 1,
            Kind::Operator(Self::UNION) => (1..=63).contains(&children),
            Kind::Operator(Self::REPARTITION) => children == 1 && (1..=64).contains(&parameter),
            Kind::Operator(_) => false,
            _ => true,
        }
    }

    fn limits_pass(&self, kind: u8, _parameter: u32) -> LimitsPass {
        match kind {
            Self::UNION => LimitsPass::RowForRow,
            _ => LimitsPass::No,
        }
    }

    fn takes_fetch(&self, kind: u8, _parameter: u32) -> bool {
        matches!(kind, Self::SCAN | Self::FILTER)
    }

    fn takes_mark(&self, kind: u8, _parameter: u32) -> bool {
        kind == Self::SCAN
    }

    fn effect(&self, kind: u8, _parameter: u32) -> CardinalityEffect {
        match kind {
            Self::FILTER => CardinalityEffect::LowerEqual,
            Self::UNION | Self::REPARTITION => CardinalityEffect::Equal,
            _ => CardinalityEffect::Unknown,
        }
    }

    fn partitions(&self, kind: u8, parameter: u32) -> PartitionCount {
        match kind {
            Self::SCAN | Self::REPARTITION => PartitionCount::Fixed(parameter),
            _ => PartitionCount::Sum,
        }
    }

    fn known_empty(&self, kind: u8, _parameter: u32) -> KnownEmpty {
        match kind {
            Self::FILTER | Self::UNION | Self::REPARTITION => { KnownEmpty::IfAllChildren }
            _ => KnownEmpty::Never,
        }
    }

    fn window(&self, parameter: u32) -> &[WindowExpr] {
        let Some(window) = Self::WINDOWS.get(parameter as usize) else {
            return WindowExpr::UNKNOWN;
        };
        window
    }

    fn group(&self, parameter: u32) -> u32 {
        parameter / 2
    }

    fn plain_distinct(&self, parameter: u32) -> bool {
        parameter % 2 == 0
    }
}
