// Hint: a limit becomes a hint on the distinct aggregates right below it.
ghost use Rattle.std.specs.Prelude.{◌≡◌, ◌≤◌, length, IfOk, if◌then◌else◌, Ok};
ghost use Rattle.plan.specs.Refusals.{refused_at};
ghost use Rattle.plan.specs.declared.refusals.Refusal.TheVariants.{Sum};
ghost use Rattle.rows.specs.Sums.{too_large};
ghost use Rattle.rows.specs.Hint.{shares_group, takes_hint, hinted_cell, hint_sum, hint_next_by, handed_on};
ghost use Rattle.limits.specs.Calls.{rule_answer, front_of};
ghost use Rattle.limits.specs.declared.rules.Rule.TheVariants.{Hint};

use crate::sums::sum_at;
use operators::OperatorSet;
use plan::{Cell, Fault, Kind};
use rows::Handed;

/// The sum that is formed at an unmarked limit with a fetch.
fn hint_sum(cell: &Cell, place: usize) -> Result<Option<u64>, Fault>
    ensures { result ≡ (if too_large (hint_sum cell.now) then refused_at Sum place else Ok (hint_sum cell.now)) }
{
    match (Kind::from(cell.kind), cell.mark, cell.fetch) {
        (Kind::GlobalLimit | Kind::LocalLimit, false, Some(fetch)) => {
            Ok(Some(sum_at(place, cell.skip, fetch)?))
        }
        _ => Ok(None),
    }
}

/// Whether an aggregate is plain distinct, and of the group of the one above, if there is one.
fn takes_hint<O: OperatorSet>(set: &O, above: Option<u32>, cell: &Cell) -> bool
    ensures { result ≡ takes_hint (O.OperatorSet.answers set.now) above cell.now }
{
    matches!(Kind::from(cell.kind), Kind::Aggregate)
        && set.plain_distinct(cell.parameter)
        && above.is_none_or(|group| group == set.group(cell.parameter))
}

fn hinted<O: OperatorSet>(set: &O, handed: Option<Handed>, cell: &Cell) -> Cell
    ensures { result ≡ hinted_cell (O.OperatorSet.answers set.now) handed cell.now }
{
    match handed {
        Some(h) if takes_hint(set, h.group, cell) => Cell {
            hint: Some(h.hint),
            ..*cell
        },
        _ => *cell,
    }
}

/// An aggregate that took the hint hands it on with its own group. Apart from `hinted`, as the two definitions are.
fn hand_on<O: OperatorSet>(set: &O, handed: Option<Handed>, cell: &Cell) -> Option<Handed>
    ensures { result ≡ handed_on (O.OperatorSet.answers set.now) handed cell.now }
{
    match handed {
        Some(h) if takes_hint(set, h.group, cell) => Some(Handed {
            hint: h.hint,
            group: Some(set.group(cell.parameter)),
        }),
        _ => None,
    }
}

/// What is handed down behind a node: the sum, where one was formed.
fn hand_down(sum: Option<u64>, on: Option<Handed>) -> Option<Handed>
    ensures { result ≡ hint_next_by sum on }
{
    sum.map(|hint| Handed { hint, group: None }).or(on)
}

/// Writes the hinted plan over the front of the work table.
pub(super) fn hint_cells<O: OperatorSet>(
    set: &O,
    cells: &[Cell],
    work: &mut [Cell],
) -> Result<usize, Fault>
    requires { length cells.now ≤ length work.old }
    ensures answer { front_of work.new result ≡ rule_answer (O.OperatorSet.answers set.now) Hint cells.now }
    ensures few { IfOk result (λ n. n ≤ length cells.now) }
{
    let mut handed: Option<Handed> = None;
    // By place: of a zip with `work.iter_mut()` no fact ties the entries to the table.
    for (place, cell) in cells.iter().enumerate() {
        let sum = hint_sum(cell, place)?;
        work[place] = hinted(set, handed, cell);
        handed = hand_down(sum, hand_on(set, handed, cell));
    }
    Ok(cells.len())
}
