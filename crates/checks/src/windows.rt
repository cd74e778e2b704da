// The check on windows that grow makes.
ghost use Rattle.std.specs.Prelude.{◌≡◌, ◌+◌, ◌^◌, ◌<◌, ◌≤◌};
ghost use Rattle.std.specs.List.{list_any};
ghost use Rattle.checks.specs.Windows.{is_absolute, looks_ahead, window_refused, below_after, windows_answer};

use operators::{LimitEffect, OperatorSet, Reach, WindowExpr};
use plan::{Cell, Fault, Kind, Refusal};

fn has_absolute(exprs: &[WindowExpr]) -> bool
    ensures { result ≡ list_any (λ e. is_absolute e.effect) exprs.now }
{
    exprs
        .iter()
        .any(|e| matches!(e.effect, LimitEffect::Absolute(_)))
}

fn looks_ahead(exprs: &[WindowExpr]) -> bool
    ensures { result ≡ looks_ahead exprs.now }
{
    Reach::of(exprs).is_some_and(|reach| reach.following > 0 || reach.relative > 0)
}

/// Whether the check refuses a cell, if so many subtrees still to come stand below a window that looks ahead.
fn is_refused<O: OperatorSet>(set: &O, below: u128, cell: &Cell) -> bool
    ensures { result ≡ window_refused (O.OperatorSet.answers set.now) below cell.now }
{
    if !matches!(Kind::from(cell.kind), Kind::BoundedWindowAgg) {
        return false;
    }
    let exprs = set.window(cell.parameter);
    has_absolute(exprs) || below > 0 && looks_ahead(exprs)
}

/// How many subtrees stand below a window that looks ahead, behind a cell.
fn below_after<O: OperatorSet>(set: &O, below: u128, cell: &Cell) -> u128
    requires { below < 2 ^ 80 }
    ensures value { result ≡ below_after (O.OperatorSet.answers set.now) below cell.now }
    ensures bound { result ≤ below + 255 }
{
    if below > 0 {
        return below - 1 + u128::from(cell.children);
    }
    let window = matches!(Kind::from(cell.kind), Kind::BoundedWindowAgg);
    if window && looks_ahead(set.window(cell.parameter)) {
        return u128::from(cell.children);
    }
    0
}

/// The first window that has an absolute effect, or looks ahead below another that does, is refused, at its place.
pub fn check_windows<O: OperatorSet>(set: &O, cells: &[Cell]) -> Result<(), Fault>
    ensures { result ≡ windows_answer (O.OperatorSet.answers set.now) cells.now }
{
    let mut below: u128 = 0;
    for (place, cell) in cells.iter().enumerate() {
        if is_refused(set, below, cell) {
            return Err(Refusal::Windows.at(place));
        }
        below = below_after(set, below, cell);
    }
    Ok(())
}
