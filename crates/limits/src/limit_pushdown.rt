// Sink: limits go down a plan as far as they can.
ghost use Rattle.std.specs.Prelude.{◌≡◌, ◌+◌, ◌*◌, ◌^◌, ◌<◌, ◌≤◌, false, ◌++◌, length, IfOk, Some, Ok};
ghost use Rattle.std.specs.Option.{option_to_list};
ghost use Rattle.plan.specs.Kinds.{is_limit};
ghost use Rattle.plan.specs.Numbers.{max_number};
ghost use Rattle.plan.specs.Refusals.{then};
ghost use Rattle.plan.specs.Stacks.{content};
ghost use Rattle.checks.specs.Accepts.{Accepted};
ghost use Rattle.checks.specs.Facts.{every_fact};
ghost use Rattle.rows.specs.Sums.{too_large};
ghost use Rattle.sinks.specs.Sink.{combined, known_within, past_limit, past_fetch, new_global, new_local, onward, satisfied_to, skipped, gathered, fetched, limited, visited_by, total_of, sink_sum};
ghost use Rattle.limits.specs.Sums.{sum_answer};
ghost use Rattle.limits.specs.Written.{written};
ghost use Rattle.limits.specs.Calls.{rule_answer, front_of};
ghost use Rattle.limits.specs.declared.rules.Rule.TheVariants.{Sink};
ghost use Rattle.limits.specs.Pending.{InRange, node_stepped, stepped};

use crate::pending::{Pending, hand_down, next_requirement};
use crate::sums::sum_at;
use checks::{Fact, KnownRows};
use operators::{OperatorSet, passes_limits, takes_fetch, takes_mark};
use plan::{Cell, Fault, Kind, Stack};
use sinks::{GlobalRequirements, Visited};

/// What stands in a cell's place, and what is pending below it. `Visited`, of which the definitions speak, always has a node.
#[derive(Clone, Copy, PartialEq, Eq, Debug)]
pub(super) struct Stepped {
    pub above: Option<Cell>,
    pub node: Option<Cell>,
    pub next: GlobalRequirements,
}

/// An outer limit over an inner one is one limit: the sum of the skips, and what both fetches leave. Its four numbers and its pair are those
/// of DataFusion's function of this name.
fn combine_limit(
    skip: u64,
    fetch: Option<u64>,
    inner_skip: u64,
    inner_fetch: Option<u64>,
) -> (u64, Option<u64>)
    requires { skip + inner_skip < 2 ^ 64 }
    ensures { result ≡ combined skip fetch inner_skip inner_fetch }
{
    let left = inner_fetch.map(|inner| inner.saturating_sub(skip));
    let least = match (fetch, left) {
        (Some(outer), Some(inner)) => Some(outer.min(inner)),
        _ => fetch.or(left),
    };
    (skip + inner_skip, least)
}

/// Whether a subtree is known to have no more rows than are pending.
fn is_within(rows: KnownRows, fetch: Option<u64>) -> bool
    ensures { result ≡ known_within rows fetch }
{
    match (rows, fetch) {
        (KnownRows::NoRow, Some(_)) => true,
        (KnownRows::OneRow, Some(n)) => n >= 1,
        _ => false,
    }
}

/// What is pending below a limit that is taken out, over a child of which this is known.
fn past_limit(pending: GlobalRequirements, cell: &Cell, child: Fact) -> GlobalRequirements
    requires { pending.skip + cell.now.skip < 2 ^ 64 }
    ensures { result ≡ past_limit pending cell.now child }
{
    let (skip, fetch) = combine_limit(pending.skip, pending.fetch, cell.skip, cell.fetch);
    GlobalRequirements {
        skip,
        fetch,
        satisfied: skip == 0 && child.partitions == 1 && is_within(child.rows, fetch),
        preserve_order: cell.mark,
    }
}

/// What is pending behind a node's own fetch.
fn past_fetch(pending: GlobalRequirements, own: Option<u64>) -> GlobalRequirements
    ensures { result ≡ past_fetch pending own }
{
    if own.is_none() {
        return pending;
    }
    let (skip, fetch) = combine_limit(pending.skip, pending.fetch, 0, own);
    GlobalRequirements {
        skip,
        fetch,
        satisfied: pending.satisfied || pending.skip == 0,
        ..pending
    }
}

fn new_global(skip: u64, fetch: Option<u64>) -> Cell
    ensures { result ≡ new_global skip fetch }
{
    Cell {
        fetch,
        skip,
        ..Cell::new(Kind::GlobalLimit, 1, 0)
    }
}

fn new_local(fetch: u64) -> Cell
    ensures { result ≡ new_local fetch }
{
    Cell {
        fetch: Some(fetch),
        ..Cell::new(Kind::LocalLimit, 1, 0)
    }
}

/// What is pending goes on down, but once it is satisfied nothing is skipped any more.
fn onward(pending: GlobalRequirements) -> GlobalRequirements
    ensures { result ≡ onward pending }
{
    GlobalRequirements {
        skip: if pending.satisfied { 0 } else { pending.skip },
        ..pending
    }
}

fn satisfied_to(pending: GlobalRequirements, fetch: Option<u64>) -> GlobalRequirements
    ensures { result ≡ satisfied_to pending fetch }
{
    GlobalRequirements {
        skip: 0,
        fetch,
        satisfied: true,
        ..pending
    }
}

/// With no fetch pending, a skip that is not satisfied goes above.
fn skipped(pending: GlobalRequirements, cell: &Cell) -> Visited
    ensures { result ≡ skipped pending cell.now }
{
    if pending.skip > 0 && !pending.satisfied {
        return Visited {
            above: Some(new_global(pending.skip, None)),
            node: *cell,
            next: satisfied_to(pending, None),
        };
    }
    Visited {
        above: None,
        node: *cell,
        next: onward(pending),
    }
}

/// A node that combines partitions gets the total of fetch and skip as its fetch; what is skipped goes above.
fn gathered(pending: GlobalRequirements, cell: &Cell, fetch: u64) -> Visited
    requires { fetch + pending.skip < 2 ^ 64 }
    ensures { result ≡ gathered pending cell.now fetch }
{
    let total = fetch + pending.skip;
    Visited {
        above: (pending.skip > 0).then_some(new_global(pending.skip, Some(fetch))),
        node: Cell {
            fetch: Some(total),
            ..*cell
        },
        next: satisfied_to(pending, Some(total)),
    }
}

/// Another node that takes a fetch gets the total, and the pending order as mark if it takes one.
fn fetched<O: OperatorSet>(set: &O, pending: GlobalRequirements, cell: &Cell, fetch: u64) -> Visited
    requires { fetch + pending.skip < 2 ^ 64 }
    ensures { result ≡ fetched (O.OperatorSet.answers set.now) pending cell.now fetch }
{
    let marks = takes_mark(set, cell);
    let unsatisfied = pending.skip > 0 && !pending.satisfied;
    Visited {
        above: unsatisfied.then_some(new_global(pending.skip, Some(fetch))),
        node: Cell {
            fetch: Some(fetch + pending.skip),
            mark: if marks {
                pending.preserve_order
            } else {
                cell.mark
            },
            ..*cell
        },
        next: satisfied_to(pending, None),
    }
}

/// A node that takes no fetch gets a limit above, if that is needed.
fn limited(pending: GlobalRequirements, cell: &Cell, partitions: u64, fetch: u64) -> Visited
    requires { fetch + pending.skip < 2 ^ 64 }
    ensures { result ≡ limited pending cell.now partitions fetch }
{
    let limit = if pending.skip > 0 || partitions == 1 {
        new_global(pending.skip, Some(fetch))
    } else {
        new_local(fetch + pending.skip)
    };
    Visited {
        above: (!pending.satisfied).then_some(limit),
        node: *cell,
        next: satisfied_to(pending, None),
    }
}

/// A visit of a node that is no limit, behind its own fetch.
fn visit<O: OperatorSet>(
    set: &O,
    pending: GlobalRequirements,
    cell: &Cell,
    partitions: u64,
) -> Visited
    requires { too_large (total_of pending pending.fetch) ≡ false }
    ensures { result ≡ visited_by (O.OperatorSet.answers set.now) pending cell.now partitions pending.fetch }
{
    let Some(fetch) = pending.fetch else {
        return skipped(pending, cell);
    };
    match Kind::from(cell.kind) {
        Kind::CoalescePartitions | Kind::SortPreservingMerge => gathered(pending, cell, fetch),
        _ if passes_limits(set, cell) => Visited {
            above: None,
            node: *cell,
            next: onward(pending),
        },
        _ if takes_fetch(set, cell) => fetched(set, pending, cell, fetch),
        _ => limited(pending, cell, partitions, fetch),
    }
}

/// The sum of fetch and skip is formed while a fetch is pending.
fn total_at(place: usize, pending: GlobalRequirements) -> Result<(), Fault>
    ensures { result ≡ sum_answer place (total_of pending pending.fetch) }
{
    if let Some(fetch) = pending.fetch {
        sum_at(place, fetch, pending.skip)?;
    }
    Ok(())
}

/// A visit of a node behind its own fetch, where the sum is not too large.
fn visit_node<O: OperatorSet>(
    set: &O,
    pending: GlobalRequirements,
    cell: &Cell,
    partitions: u64,
    place: usize,
) -> Result<Stepped, Fault>
    ensures { result ≡ then (sum_answer place (total_of pending pending.fetch)) (λ _. Ok (node_stepped (visited_by (O.OperatorSet.answers set.now) pending cell.now partitions pending.fetch))) }
{
    total_at(place, pending)?;
    let Visited { above, node, next } = visit(set, pending, cell, partitions);
    Ok(Stepped {
        above,
        node: Some(node),
        next,
    })
}

fn is_limit(kind: u8) -> bool
    ensures { result ≡ is_limit kind }
{
    matches!(Kind::from(kind), Kind::GlobalLimit | Kind::LocalLimit)
}

/// What stands in a cell's place: a limit is taken out, any other node is visited.
fn step<O: OperatorSet>(
    set: &O,
    pending: GlobalRequirements,
    cell: &Cell,
    own: Fact,
    child: Fact,
    place: usize,
) -> Result<Stepped, Fault>
    requires pending { InRange pending }
    requires cell { cell.now.skip ≤ max_number }
    ensures { result ≡ then (sum_answer place (sink_sum pending cell.now)) (λ _. Ok (stepped (O.OperatorSet.answers set.now) pending cell.now own.partitions child)) }
{
    if is_limit(cell.kind) {
        sum_at(place, pending.skip, cell.skip)?;
        return Ok(Stepped {
            above: None,
            node: None,
            next: past_limit(pending, cell, child),
        });
    }
    let pending = past_fetch(pending, cell.fetch);
    visit_node(set, pending, cell, own.partitions, place)
}

/// The cells that are written so far, at the front of a table.
#[derive(Drop)]
struct Written<'a> {
    table: &'a mut [Cell],
    count: usize,
}

impl Written<'_> {
    /// One cell more, if there is one.
    fn put(&mut self, cell: Option<Cell>)
        requires { self.old.count < length self.old.table.now }
        ensures loan { self.new.table.ghost_name ≡ self.old.table.ghost_name }
        ensures len { length self.new.table.now ≡ length self.old.table.now }
        ensures count { self.new.count ≡ self.old.count + length (option_to_list cell) }
        ensures cells { written self.new ≡ written self.old ++ option_to_list cell }
    {
        if let Some(cell) = cell {
            self.table[self.count] = cell;
            self.count += 1;
        }
    }
}

/// Writes the sunk plan over the front of the work table. The facts of its cells are on the fact stack.
pub(super) fn sink_cells<O: OperatorSet>(
    set: &O,
    cells: &[Cell],
    work: &mut [Cell],
    requirements: &mut [Pending],
    known: &Stack<Fact>,
) -> Result<usize, Fault>
    requires accepted { Accepted (O.OperatorSet.answers set.now) cells.now }
    requires work { 2 * length cells.now ≤ length work.old }
    requires requirements { length cells.now ≤ length requirements.old }
    requires facts { content known.now ≡ every_fact (O.OperatorSet.answers set.now) cells.now }
    ensures answer { front_of work.new result ≡ rule_answer (O.OperatorSet.answers set.now) Sink cells.now }
    ensures few { IfOk result (λ n. n ≤ 2 * length cells.now) }
{
    let mut pending = Stack::new(requirements);
    hand_down(&mut pending, GlobalRequirements::FIRST, 1);
    let mut written = Written {
        table: work,
        count: 0,
    };
    for (place, cell) in cells.iter().enumerate() {
        let requirement = next_requirement(&mut pending);
        let own = Fact::at(known, place);
        let child = Fact::at(known, place + 1);
        let Stepped { above, node, next } = step(set, requirement, cell, own, child, place)?;
        written.put(above);
        written.put(node);
        hand_down(&mut pending, next, cell.children);
    }
    Ok(written.count)
}
