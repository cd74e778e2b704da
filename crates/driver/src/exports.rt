// The calls that C sees, on packed plans of up to 4,096 nodes. A slice crosses as a pointer and a length. Each answers, writes and keeps
// pages as the calls under the catalogue's operators do.
ghost use Rattle.std.specs.Prelude.{◌≤◌, length, take};
ghost use Rattle.std.specs.List.{AllZip};
ghost use Rattle.operators.specs.Declarations.{declared_answers};
ghost use Rattle.packed_calls.specs.Laws.{PackedCalled};
ghost use Rattle.driver.specs.Reading.{rule_of, exprs_of, width_of, declarations_of};
ghost use Rattle.driver.specs.Tables.{table_answers, held};

use crate::held::TableSet;
use crate::reading::rule_of;
use crate::row_types::{DeclarationRow, ExprRow, GroupRow, OperatorRow};
use operators::{
    CardinalityEffect, Declaration, DeclaredSet, FrameBound, FrameUnits, LimitEffect, Shape,
    WindowExpr,
};
use packed_calls::convert_large;

/// What stands behind the expressions that are read.
const NO_EXPR: WindowExpr = WindowExpr {
    effect: LimitEffect::None,
    units: FrameUnits::Rows,
    end_bound: FrameBound::Preceding,
};

/// What stands behind the declarations that are read.
const NO_DECLARATION: Declaration = Declaration {
    kind: 0,
    shape: Shape::Source { partitions: 0 },
    fetch: false,
    mark: false,
    effect: CardinalityEffect::Unknown,
};

/// Reads as many rows as there is room for, and answers how many.
fn read_rows<R: Copy, T: From<R> + Copy>(rows: &[R], read: &mut [T]) -> usize
    ensures count { result ≤ length read.old }
    ensures rows { AllZip T.From.from_gives (take (length read.old) rows.now) (take result read.new) }
{
    let count = read.len().min(rows.len());
    // By place: of a zip with `read.iter_mut()` no fact ties the entries to the slice.
    for (place, row) in rows[..count].iter().enumerate() {
        read[place] = T::from(*row);
    }
    count
}

/// Calls a rule under a set whose answers a table gives: 0 is sink, 1 grow, else hint. Of the expressions the first 256 are read, and
/// a window has `width` of them, 1 to 16.
#[unsafe(no_mangle)]
pub extern "C" fn driver_table(
    rule: u8,
    operators: &[OperatorRow],
    exprs: &[ExprRow],
    width: usize,
    groups: &[GroupRow],
    plan: &[u8],
    out: &mut [u8],
) -> i32
    ensures { PackedCalled (table_answers operators.now (exprs_of exprs.now) (width_of width) groups.now) 4096 (rule_of rule) plan.now (length out.old) out.new result }
{
    let mut read = [NO_EXPR; 256];
    let count = read_rows(exprs, &mut read);
    let set = TableSet {
        operators,
        exprs: &read[..count],
        width: width.clamp(1, 16),
        groups,
    };
    convert_large(rule_of(rule), &set, plan, out)
}

/// Calls a rule under the set of these declarations, of which the first 241 are read; where the set refuses them, it holds none.
#[unsafe(no_mangle)]
pub extern "C" fn driver_declared(
    rule: u8,
    rows: &[DeclarationRow],
    plan: &[u8],
    out: &mut [u8],
) -> i32
    ensures { PackedCalled (declared_answers (held (declarations_of rows.now))) 4096 (rule_of rule) plan.now (length out.old) out.new result }
{
    let mut read = [NO_DECLARATION; 241];
    let count = read_rows(rows, &mut read);
    let mut set = DeclaredSet::new();
    let _ = set.read(&read[..count]);
    convert_large(rule_of(rule), &set, plan, out)
}
