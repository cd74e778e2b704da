// The checks that look at one cell after another, with the cell before it.
ghost use Rattle.std.specs.Prelude.{◌≡◌, Bool, Option};
ghost use Rattle.std.specs.Option.{option_copied};
ghost use Rattle.plan.specs.declared.cells.Cell.{Cell};
ghost use Rattle.checks.specs.Cells.{small, small_cell, placed_cell, taken_cell, fields_cell, limit_bears, aggregate_bears, borne_out, hint_cell, Computes, singly};

use operators::{OperatorSet, takes_fetch, takes_mark};
use plan::{Cell, Fault, Kind, MAX_NUMBER, Refusal};

/// Whether a number that may be missing is in range.
fn is_small(number: Option<u64>) -> bool
    ensures { result ≡ small number }
{
    number.is_none_or(|n| n <= MAX_NUMBER)
}

/// Whether a skip stands on a global limit and a hint on an aggregate, and a local limit has a fetch.
fn is_placed(cell: &Cell) -> bool
    ensures { result ≡ placed_cell cell.now }
{
    let kind = Kind::from(cell.kind);
    (cell.skip == 0 || matches!(kind, Kind::GlobalLimit))
        && (cell.fetch.is_some() || !matches!(kind, Kind::LocalLimit))
        && (cell.hint.is_none() || matches!(kind, Kind::Aggregate))
}

/// Whether a fetch and a mark stand where the operator takes them.
fn is_taken<O: OperatorSet>(set: &O, cell: &Cell) -> bool
    ensures { result ≡ taken_cell (O.OperatorSet.answers set.now) cell.now }
{
    (cell.fetch.is_none() || takes_fetch(set, cell)) && (!cell.mark || takes_mark(set, cell))
}

/// Whether numbers, fetches, hints and marks are in range and where they belong.
pub(super) fn fields_fit<O: OperatorSet>(set: &O, cell: &Cell) -> bool
    ensures { result ≡ fields_cell (O.OperatorSet.answers set.now) cell.now }
{
    cell.skip <= MAX_NUMBER
        && is_small(cell.fetch)
        && is_small(cell.hint)
        && is_placed(cell)
        && is_taken(set, cell)
}

/// Whether a limit needs no more rows than the hint.
fn limit_bears(above: &Cell, hint: u64) -> bool
    ensures { result ≡ limit_bears above.now above.now.fetch hint }
{
    match (Kind::from(above.kind), above.fetch) {
        (Kind::GlobalLimit | Kind::LocalLimit, Some(fetch)) => {
            fetch == 0 || u128::from(above.skip) + u128::from(fetch) <= u128::from(hint)
        }
        _ => false,
    }
}

/// Whether a hinted aggregate of the same group asks for no more than the hint.
fn aggregate_bears<O: OperatorSet>(set: &O, above: &Cell, parameter: u32, hint: u64) -> bool
    ensures { result ≡ aggregate_bears (O.OperatorSet.answers set.now) above.now above.now.hint parameter hint }
{
    above.hint.is_some_and(|asked| asked <= hint)
        && set.group(above.parameter) == set.group(parameter)
}

/// Whether the cell above, which stands before it, bears its hint out.
pub(super) fn hint_fits<O: OperatorSet>(set: &O, above: Option<&Cell>, cell: &Cell) -> bool
    ensures { result ≡ hint_cell (O.OperatorSet.answers set.now) (option_copied above.entry) cell.now cell.now.hint }
{
    let Some(hint) = cell.hint else {
        return true;
    };
    let Some(above) = above else {
        return false;
    };
    set.plain_distinct(cell.parameter)
        && (limit_bears(above, hint) || aggregate_bears(set, above, cell.parameter, hint))
}

/// The first cell that does not pass the test, with the cell before it, is refused, at its place.
pub(super) fn check_cells<F: Fn(Option<&Cell>, &Cell) -> bool>(
    cells: &[Cell],
    refusal: Refusal,
    passes: F,
) -> Result<(), Fault>
    requires { F.IsAlwaysCallable passes }
    ensures { (test : Option Cell → Cell → Bool) → Computes F.Fn passes test → result ≡ singly test refusal cells.now }
{
    let mut before = None;
    for (place, cell) in cells.iter().enumerate() {
        if !passes(before, cell) {
            return Err(refusal.at(place));
        }
        before = Some(cell);
    }
    Ok(())
}
