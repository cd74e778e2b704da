// What a cell's number for its kind says: below 16 a kind that means the same in every plan, from 16 on one of the operator set's.
ghost use Rattle.std.specs.Prelude.{◌≡◌};
ghost use Rattle.plan.specs.Kinds.{kind_of, number_of_kind};

/// A kind, by DataFusion's name less `Exec`.
#[derive(Clone, Copy, PartialEq, Eq, Debug)]
pub enum Kind {
    Empty,
    PlaceholderRow,
    GlobalLimit,
    LocalLimit,
    Projection,
    CoalescePartitions,
    SortPreservingMerge,
    Sort,
    BoundedWindowAgg,
    Aggregate,
    /// Numbers 10 to 15, which no cell of an accepted plan has.
    Reserved(u8),
    /// Numbers from 16 on, of which the operator set speaks.
    Operator(u8),
}

impl From<u8> for Kind {
    ghost from_gives = { λ number kind. kind ≡ kind_of number };

    fn from(number: u8) -> Kind {
        match number {
            0 => Kind::Empty,
            1 => Kind::PlaceholderRow,
            2 => Kind::GlobalLimit,
            3 => Kind::LocalLimit,
            4 => Kind::Projection,
            5 => Kind::CoalescePartitions,
            6 => Kind::SortPreservingMerge,
            7 => Kind::Sort,
            8 => Kind::BoundedWindowAgg,
            9 => Kind::Aggregate,
            10..=15 => Kind::Reserved(number),
            _ => Kind::Operator(number),
        }
    }
}

impl From<Kind> for u8 {
    ghost from_gives = { λ kind number. number ≡ number_of_kind kind };

    fn from(kind: Kind) -> u8 {
        match kind {
            Kind::Empty => 0,
            Kind::PlaceholderRow => 1,
            Kind::GlobalLimit => 2,
            Kind::LocalLimit => 3,
            Kind::Projection => 4,
            Kind::CoalescePartitions => 5,
            Kind::SortPreservingMerge => 6,
            Kind::Sort => 7,
            Kind::BoundedWindowAgg => 8,
            Kind::Aggregate => 9,
            Kind::Reserved(number) | Kind::Operator(number) => number,
        }
    }
}
