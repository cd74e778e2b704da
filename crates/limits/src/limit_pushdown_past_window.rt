// Grow: a limit goes past windows, grown by what they look ahead, to the first sort or merge below them.
ghost use Rattle.std.specs.Prelude.{◌≡◌, ◌≤◌, true, length, is_ok, IfOk, Ok};
ghost use Rattle.plan.specs.Refusals.{then};
ghost use Rattle.rows.specs.Grow.{lets_through, reset_limit, limit_found, past_window, past_apply, applied, window_sum, apply_sum, turn, grown_cell, grow_next, grow_sum, grown_plan, grow_sums};
ghost use Rattle.limits.specs.Sums.{sum_answer};
ghost use Rattle.limits.specs.Calls.{rule_answer, front_of};
ghost use Rattle.limits.specs.declared.rules.Rule.TheVariants.{Grow};

use crate::sums::sum_at;
use checks::check_windows;
use operators::{CardinalityEffect, OperatorSet, Reach, effect, passes_limits};
use plan::{Cell, Fault, Kind};
use rows::{Phase, TraverseState, Turn};

/// Whether limits pass, and as many rows come out as go in, or more.
fn lets_through<O: OperatorSet>(set: &O, cell: &Cell) -> bool
    ensures { result ≡ lets_through (O.OperatorSet.answers set.now) cell.now.kind cell.now.parameter }
{
    passes_limits(set, cell)
        && matches!(
            effect(set, cell),
            CardinalityEffect::Equal | CardinalityEffect::GreaterEqual
        )
}

/// The walk over the nodes, each before its children.
#[derive(Clone, Copy, PartialEq, Eq, Debug)]
struct Traversal {
    state: TraverseState,
}

impl Traversal {
    /// Another limit, or none, and no look-ahead.
    fn reset_limit(&mut self, limit: Option<u64>)
        ensures { self.new.state ≡ reset_limit self.old.state limit }
    {
        self.state.limit = limit;
        self.state.lookahead = 0;
    }

    /// Grabs the latest limit.
    fn get_limit(&mut self, cell: &Cell, place: usize) -> Result<(), Fault>
        ensures answer { result ≡ sum_answer place (limit_found cell.now.skip cell.now.fetch) }
        ensures state { is_ok result ≡ true → self.new.state ≡ reset_limit self.old.state (limit_found cell.now.skip cell.now.fetch) }
    {
        let limit = cell.fetch.map(|fetch| sum_at(place, cell.skip, fetch));
        self.reset_limit(limit.transpose()?);
        Ok(())
    }

    /// Passes a window: applying from now on, and without a reach no limit.
    fn grow_limit(&mut self, reach: Option<Reach>, place: usize) -> Result<(), Fault>
        ensures answer { result ≡ sum_answer place (window_sum self.old.state reach) }
        ensures state { is_ok result ≡ true → self.new.state ≡ past_window self.old.state reach }
    {
        self.state.phase = Phase::Apply;
        match reach {
            Some(reach) => {
                let ahead = self.state.lookahead.max(reach.following);
                self.state.lookahead = sum_at(place, ahead, reach.relative)?;
            }
            None => self.reset_limit(None),
        }
        Ok(())
    }

    /// A sort or merge gets the limit and the look-ahead as its fetch, and the walk ends.
    fn apply_limit(&mut self, cell: &Cell, place: usize) -> Result<Cell, Fault>
        ensures answer { result ≡ then (sum_answer place (apply_sum self.old.state self.old.state.limit)) (λ _. Ok (applied self.old.state self.old.state.limit cell.now)) }
        ensures state { is_ok result ≡ true → self.new.state ≡ past_apply self.old.state self.old.state.limit }
    {
        let Some(limit) = self.state.limit else {
            self.reset_limit(None);
            return Ok(*cell);
        };
        let grown = sum_at(place, limit, self.state.lookahead)?;
        self.reset_limit(None);
        self.state.phase = Phase::Ended;
        let fetch = cell.fetch.map_or(grown, |own| own.min(grown));
        Ok(Cell {
            fetch: Some(fetch),
            ..*cell
        })
    }

    /// What the walk does at a node: the phase and the node together decide.
    fn turn<O: OperatorSet>(&self, set: &O, cell: &Cell) -> Turn
        ensures { result ≡ turn (O.OperatorSet.answers set.now) self.now.state cell.now }
    {
        match (self.state.phase, Kind::from(cell.kind)) {
            (Phase::Ended, _) => Turn::Keep,
            _ if cell.children > 1 => Turn::Reset,
            (Phase::FindOrGrow, Kind::GlobalLimit | Kind::LocalLimit | Kind::SortPreservingMerge) =>
                Turn::Find,
            (_, Kind::BoundedWindowAgg) => Turn::Grow,
            (Phase::Apply, Kind::Sort | Kind::SortPreservingMerge) => Turn::Apply,
            _ if lets_through(set, cell) => Turn::Keep,
            _ => Turn::Reset,
        }
    }

    /// Visits a node: it answers the node as it is to stand, and changes itself.
    fn visit<O: OperatorSet>(&mut self, set: &O, cell: &Cell, place: usize) -> Result<Cell, Fault>
        ensures answer { result ≡ then (sum_answer place (grow_sum (O.OperatorSet.answers set.now) self.old.state cell.now)) (λ _. Ok (grown_cell (O.OperatorSet.answers set.now) self.old.state cell.now)) }
        ensures state { is_ok result ≡ true → self.new.state ≡ grow_next (O.OperatorSet.answers set.now) self.old.state cell.now }
    {
        match self.turn(set, cell) {
            Turn::Keep => Ok(*cell),
            Turn::Reset => {
                self.reset_limit(None);
                Ok(*cell)
            }
            Turn::Find => {
                self.get_limit(cell, place)?;
                Ok(*cell)
            }
            Turn::Grow => {
                self.grow_limit(Reach::of(set.window(cell.parameter)), place)?;
                Ok(*cell)
            }
            Turn::Apply => self.apply_limit(cell, place),
        }
    }
}

/// Writes the grown plan over the front of the work table.
pub(super) fn grow_cells<O: OperatorSet>(
    set: &O,
    cells: &[Cell],
    work: &mut [Cell],
) -> Result<usize, Fault>
    requires { length cells.now ≤ length work.old }
    ensures answer { front_of work.new result ≡ rule_answer (O.OperatorSet.answers set.now) Grow cells.now }
    ensures few { IfOk result (λ n. n ≤ length cells.now) }
{
    check_windows(set, cells)?;
    walk_cells(set, cells, work)
}

fn walk_cells<O: OperatorSet>(set: &O, cells: &[Cell], work: &mut [Cell]) -> Result<usize, Fault>
    requires { length cells.now ≤ length work.old }
    ensures answer { front_of work.new result ≡ then (grow_sums (O.OperatorSet.answers set.now) cells.now) (λ _. Ok (grown_plan (O.OperatorSet.answers set.now) cells.now)) }
    ensures few { IfOk result (λ n. n ≤ length cells.now) }
{
    let mut walk = Traversal {
        state: TraverseState {
            phase: Phase::FindOrGrow,
            limit: None,
            lookahead: 0,
        },
    };
    // By place: of a zip with `work.iter_mut()` no fact ties the entries to the table.
    for (place, cell) in cells.iter().enumerate() {
        work[place] = walk.visit(set, cell, place)?;
    }
    Ok(cells.len())
}
