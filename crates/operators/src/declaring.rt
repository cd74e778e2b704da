// The declared set reads its declarations and answers by them.
ghost use Rattle.std.specs.Prelude.{◌≡◌, [], is_ok, if◌then◌else◌};
ghost use Rattle.operators.specs.Declarations.{look_up, is_refused, declared_answer, declared_answers, declared_source, fits_shape, passes_shape, partitions_shape};
ghost use Rattle.operators.specs.Stored.{Shows};

use super::{
    CardinalityEffect, Declaration, DeclaredSet, KnownEmpty, LimitsPass, OperatorSet,
    PartitionCount, Shape, WindowExpr,
};
use plan::{Fault, Kind, Refusal};

/// As many as there are kinds from 16 on.
const MAX_DECLARATIONS: usize = 240;

/// The declaration of a kind, if there is one.
fn find(list: &[Declaration], kind: u8) -> Option<Declaration>
    ensures { result ≡ look_up list.now kind }
{
    list.iter().copied().find(|d| d.kind == kind)
}

impl Shape {
    fn fits(self, children: u8) -> bool
        ensures { result ≡ fits_shape self children }
    {
        match self {
            Shape::Source { .. } => children == 0,
            Shape::EachPartition => children == 1,
            Shape::RowForRow | Shape::Gathering { .. } => (1..=63).contains(&children),
        }
    }

    fn limits_pass(self) -> LimitsPass
        ensures { result ≡ passes_shape self }
    {
        match self {
            Shape::RowForRow => LimitsPass::RowForRow,
            Shape::Source { .. } | Shape::EachPartition | Shape::Gathering { .. } => LimitsPass::No,
        }
    }

    fn partitions(self) -> PartitionCount
        ensures { result ≡ partitions_shape self }
    {
        match self {
            Shape::Source { partitions } | Shape::Gathering { partitions } => {
                PartitionCount::Fixed(partitions)
            }
            Shape::RowForRow | Shape::EachPartition => PartitionCount::Sum,
        }
    }
}

impl Declaration {
    fn is_refused(&self, earlier: &[Declaration]) -> bool
        ensures { result ≡ is_refused earlier.now self.now }
    {
        match Kind::from(self.kind) {
            Kind::Operator(_) => {
                find(earlier, self.kind).is_some() || self.shape == Shape::RowForRow && self.fetch
            }
            _ => true,
        }
    }
}

/// Whether a set may hold these declarations, or the first that is refused.
fn check_declarations(list: &[Declaration]) -> Result<(), Fault>
    ensures { result ≡ declared_answer list.now }
{
    if list.len() > MAX_DECLARATIONS {
        return Err(Refusal::Declaration.at(MAX_DECLARATIONS));
    }
    // By place, since each is looked up among those before it.
    for (place, d) in list.iter().enumerate() {
        if d.is_refused(&list[..place]) {
            return Err(Refusal::Declaration.at(place));
        }
    }
    Ok(())
}

impl<'a> DeclaredSet<'a> {
    /// Holds no declaration.
    pub fn new() -> DeclaredSet<'a>
        ensures { result.declarations.now ≡ [] }
    {
        DeclaredSet { declarations: &[] }
    }

    /// Reads up to 240 declarations in the place of what it held. Refused, it holds none.
    pub fn read(&mut self, list: &'a [Declaration]) -> Result<(), Fault>
        ensures answer { result ≡ declared_answer list.now }
        ensures held { self.new.declarations.now ≡ (if is_ok result then list.now else []) }
    {
        *self = DeclaredSet::new();
        check_declarations(list)?;
        *self = DeclaredSet { declarations: list };
        Ok(())
    }

    /// Shows the rules for all stored data: any rows at the declared sources, and any making of rows by the other operators that
    /// the rules allow; and for every choice of rows at the sources there are such data.
    pub fn shows(&self)
        ensures { Shows (declared_answers self.now.declarations.now) (declared_source self.now.declarations.now) }
    {}
}

impl OperatorSet for DeclaredSet<'_> {
    ghost answers = { λ s. declared_answers s.declarations.now };

    fn fits(&self, kind: u8, _parameter: u32, children: u8) -> bool {
        match Kind::from(kind) {
            Kind::Operator(_) => find(self.declarations, kind).is_some_and(|d| d
                .shape
                .fits(children)),
            Kind::BoundedWindowAgg | Kind::Aggregate => false,
            _ => true,
        }
    }

    fn limits_pass(&self, kind: u8, _parameter: u32) -> LimitsPass {
        find(self.declarations, kind).map_or(LimitsPass::No, |d| d.shape.limits_pass())
    }

    fn takes_fetch(&self, kind: u8, _parameter: u32) -> bool {
        find(self.declarations, kind).is_some_and(|d| d.fetch)
    }

    fn takes_mark(&self, kind: u8, _parameter: u32) -> bool {
        find(self.declarations, kind).is_some_and(|d| d.mark)
    }

    fn effect(&self, kind: u8, _parameter: u32) -> CardinalityEffect {
        find(self.declarations, kind).map_or(CardinalityEffect::Unknown, |d| d.effect)
    }

    fn partitions(&self, kind: u8, _parameter: u32) -> PartitionCount {
        find(self.declarations, kind).map_or(PartitionCount::Sum, |d| d.shape.partitions())
    }

    fn known_empty(&self, _kind: u8, _parameter: u32) -> KnownEmpty {
        KnownEmpty::Never
    }

    fn window(&self, _parameter: u32) -> &[WindowExpr] {
        WindowExpr::UNKNOWN
    }

    fn group(&self, _parameter: u32) -> u32 {
        0
    }

    fn plain_distinct(&self, _parameter: u32) -> bool {
        false
    }
}
