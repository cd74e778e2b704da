// The letters of kinds.
ghost use Rattle.std.specs.Prelude.{◌≡◌, ℕ, ◌<◌, IfSome, Some, MatchOption, ◌≢◌};
ghost use Rattle.text.specs.Letters.{letter_of, kind_of_letter};

use operators::CatalogueSet;
use plan::Kind;

/// The letter of a kind, if it has one.
pub fn letter_of(kind: u8) -> Option<char>
    ensures value { result ≡ letter_of kind }
    ensures ascii { IfSome result (λ l. l < 128) }
{
    match Kind::from(kind) {
        Kind::Empty => Some('E'),
        Kind::PlaceholderRow => Some('R'),
        Kind::GlobalLimit => Some('G'),
        Kind::LocalLimit => Some('L'),
        Kind::Projection => Some('P'),
        Kind::CoalescePartitions => Some('C'),
        Kind::SortPreservingMerge => Some('M'),
        Kind::Sort => Some('S'),
        Kind::BoundedWindowAgg => Some('W'),
        Kind::Aggregate => Some('A'),
        Kind::Operator(CatalogueSet::SCAN) => Some('H'),
        Kind::Operator(CatalogueSet::FILTER) => Some('F'),
        Kind::Operator(CatalogueSet::UNION) => Some('U'),
        Kind::Reserved(_) | Kind::Operator(_) => None,
    }
}

/// The kind that a letter stands for, if it stands for one.
pub fn kind_of(letter: u8) -> Option<u8>
    ensures value { result ≡ kind_of_letter letter }
    ensures back { MatchOption result ((k : ℕ) → letter_of k ≢ Some letter) (λ k. letter_of k ≡ Some letter) }
{
    let kind = match letter {
        b'E' => Kind::Empty,
        b'R' => Kind::PlaceholderRow,
        b'G' => Kind::GlobalLimit,
        b'L' => Kind::LocalLimit,
        b'P' => Kind::Projection,
        b'C' => Kind::CoalescePartitions,
        b'M' => Kind::SortPreservingMerge,
        b'S' => Kind::Sort,
        b'W' => Kind::BoundedWindowAgg,
        b'A' => Kind::Aggregate,
        b'H' => Kind::Operator(CatalogueSet::SCAN),
        b'F' => Kind::Operator(CatalogueSet::FILTER),
        b'U' => Kind::Operator(CatalogueSet::UNION),
        _ => return None,
    };
    Some(u8::from(kind))
}
