// Numbers read as what they stand for. A number that stands for nothing is read as the last case. Functions, since `From` for a number and
// an enum of another crate is not this crate's to implement.
ghost use Rattle.std.specs.Prelude.{◌≡◌};
ghost use Rattle.driver.specs.Reading.{rule_of, effect_of, known_empty_of, limit_effect_of, units_of, bound_of, expr_of, shape_of, declaration_of};

use crate::row_types::{DeclarationRow, ExprRow};
use limits::Rule;
use operators::{
    CardinalityEffect, Declaration, FrameBound, FrameUnits, KnownEmpty, LimitEffect, Shape,
    WindowExpr,
};
use plan::MAX_NUMBER;

pub(super) fn rule_of(number: u8) -> Rule
    ensures { result ≡ rule_of number }
{
    match number {
        0 => Rule::Sink,
        1 => Rule::Grow,
        _ => Rule::Hint,
    }
}

pub(super) fn effect_of(number: u8) -> CardinalityEffect
    ensures { result ≡ effect_of number }
{
    match number {
        1 => CardinalityEffect::LowerEqual,
        2 => CardinalityEffect::Equal,
        3 => CardinalityEffect::GreaterEqual,
        _ => CardinalityEffect::Unknown,
    }
}

pub(super) fn known_empty_of(number: u8) -> KnownEmpty
    ensures { result ≡ known_empty_of number }
{
    match number {
        1 => KnownEmpty::Always,
        2 => KnownEmpty::IfAllChildren,
        _ => KnownEmpty::Never,
    }
}

fn limit_effect_of(effect: u8, number: u64) -> LimitEffect
    ensures { result ≡ limit_effect_of effect number }
{
    match effect {
        0 => LimitEffect::None,
        2 => LimitEffect::Relative(number),
        3 => LimitEffect::Absolute(number),
        _ => LimitEffect::Unknown,
    }
}

fn units_of(number: u8) -> FrameUnits
    ensures { result ≡ units_of number }
{
    match number {
        0 => FrameUnits::Rows,
        _ => FrameUnits::Other,
    }
}

fn bound_of(end: u8, number: u64) -> FrameBound
    ensures { result ≡ bound_of end number }
{
    match end {
        0 => FrameBound::Preceding,
        1 => FrameBound::CurrentRow,
        2 => FrameBound::Following(number),
        _ => FrameBound::Other,
    }
}

/// A number that is too large is cut down to the largest.
impl From<ExprRow> for WindowExpr {
    ghost from_gives = { λ row expr. expr ≡ expr_of row };

    fn from(row: ExprRow) -> WindowExpr {
        WindowExpr {
            effect: limit_effect_of(row.effect, row.effect_number.min(MAX_NUMBER)),
            units: units_of(row.units),
            end_bound: bound_of(row.end, row.end_number.min(MAX_NUMBER)),
        }
    }
}

fn shape_of(number: u8, partitions: u32) -> Shape
    ensures { result ≡ shape_of number partitions }
{
    match number {
        0 => Shape::Source { partitions },
        1 => Shape::RowForRow,
        2 => Shape::EachPartition,
        _ => Shape::Gathering { partitions },
    }
}

impl From<DeclarationRow> for Declaration {
    ghost from_gives = { λ row declaration. declaration ≡ declaration_of row };

    fn from(row: DeclarationRow) -> Declaration {
        Declaration {
            kind: row.kind,
            shape: shape_of(row.shape, row.number),
            fetch: row.fetch,
            mark: row.mark,
            effect: effect_of(row.effect),
        }
    }
}
