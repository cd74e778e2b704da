// The checks in their order. A fault goes up unchanged, by `?`.
ghost use Rattle.std.specs.Prelude.{◌≡◌, ◌≤◌, true, [], length, take, replicate, is_ok};
ghost use Rattle.plan.specs.Numbers.{max_nodes};
ghost use Rattle.plan.specs.Stacks.{content, room};
ghost use Rattle.checks.specs.Facts.{blank_fact, every_fact};
ghost use Rattle.checks.specs.Accepts.{count_answer, room_answer, plan_answer, check_answer};

use super::Fact;
use super::facts::{check_partitions, put_facts};
use super::shapes::check_tree;
use super::single::{check_cells, fields_fit, hint_fits};
use operators::{OperatorSet, fits};
use plan::{Cell, Fault, MAX_NODES, Refusal, Stack};

/// The count is refused where it is 0, above 4,096 or above the number of the table's cells.
pub fn check_count(table: usize, count: usize) -> Result<(), Fault>
    ensures { result ≡ count_answer table count }
{
    if count == 0 || count > MAX_NODES || table < count {
        return Err(Refusal::Count.at(0));
    }
    Ok(())
}

/// A table or a stack is refused where it has fewer entries than are wanted.
pub fn check_room(entries: usize, wanted: usize) -> Result<(), Fault>
    ensures { result ≡ room_answer entries wanted }
{
    if entries < wanted {
        return Err(Refusal::Room.at(0));
    }
    Ok(())
}

/// The checks of a plan: tree, fit, fields, partitions, hints. Accepted, its facts are on the stack.
#[tactic(auto, using(crate::proofs::Subtrees::head_every))]
fn check_plan<O: OperatorSet>(
    set: &O,
    cells: &[Cell],
    known: &mut Stack<Fact>,
) -> Result<u64, Fault>
    requires few { length cells.now ≤ max_nodes }
    requires empty { content known.old ≡ [] }
    requires room { length cells.now ≤ room known.old }
    ensures loan { known.new.items.ghost_name ≡ known.old.items.ghost_name }
    ensures answer { result ≡ plan_answer (O.OperatorSet.answers set.now) cells.now }
    ensures facts { is_ok result ≡ true → content known.new ≡ every_fact (O.OperatorSet.answers set.now) cells.now }
{
    check_tree(cells)?;
    check_cells(cells, Refusal::Fit, |_, cell| fits(set, cell))?;
    check_cells(cells, Refusal::Fields, |_, cell| fields_fit(set, cell))?;
    put_facts(set, cells, known);
    check_partitions(cells, known)?;
    check_cells(
        cells,
        Refusal::Hints,
        |above, cell| hint_fits(set, above, cell),
    )?;
    Ok(Fact::at(known, 0).partitions)
}

/// Checks the plan in the first `count` cells of a table: the count, room for as many facts, then the plan. Accepted, it answers how
/// many partitions the root has, and the stack holds the fact of each cell's subtree, the root's on top.
pub fn accept<O: OperatorSet>(
    set: &O,
    table: &[Cell],
    count: usize,
    known: &mut Stack<Fact>,
) -> Result<u64, Fault>
    ensures loan { known.new.items.ghost_name ≡ known.old.items.ghost_name }
    ensures answer { result ≡ check_answer (O.OperatorSet.answers set.now) table.now count (length known.old.items.now) }
    ensures facts { is_ok result ≡ true → content known.new ≡ every_fact (O.OperatorSet.answers set.now) (take count table.now) }
{
    check_count(table.len(), count)?;
    known.clear();
    check_room(known.room(), count)?;
    check_plan(set, &table[..count], known)
}

/// Checks the plan in the first `count` cells of a table, with lent memory for facts, which is blank afterwards. It answers the
/// first refusal in order, with its place, or how many partitions the accepted plan's root has.
pub fn check<O: OperatorSet>(
    set: &O,
    table: &[Cell],
    count: usize,
    memory: &mut [Fact],
) -> Result<u64, Fault>
    ensures answer { result ≡ check_answer (O.OperatorSet.answers set.now) table.now count (length memory.old) }
    ensures blank { memory.new ≡ replicate (length memory.old) blank_fact }
{
    let mut known = Stack::new(memory);
    let answer = accept(set, table, count, &mut known);
    memory.fill(Fact::BLANK);
    answer
}
