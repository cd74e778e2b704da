// A plan read from its text: nodes in prefix order, children behind their parent.
ghost use Rattle.std.specs.Prelude.{◌≡◌, ◌+◌, ◌<◌, ◌≤◌, reverse, length, IfOk, IfErr, Ok, vec_len, OnOk, slice_index_or};
ghost use Rattle.plan.specs.Cells.{blank};
ghost use Rattle.plan.specs.Numbers.{max_nodes, max_children};
ghost use Rattle.notation.specs.Cursors.{past_blanks};
ghost use Rattle.notation.specs.Plans.{close_at, next_at, StandsFor};
ghost use Rattle.notation.specs.Trees.{child_counted, ReadPlan};

use crate::cursor::Cursor;
use plan::{Cell, MAX_CHILDREN, MAX_NODES};
use std::alloc::Global;
use text::{Problem, Slip};

// One child more for the cell at a place, and so one cell more for the plan.
fn count_child(cells: &mut Vec<Cell>, parent: usize) -> Result<(), Problem>
    requires { parent < vec_len cells.old }
    ensures items { OnOk result (cells.new.items ≡ child_counted cells.old.items parent) }
    ensures few { OnOk result (vec_len cells.old < max_nodes) }
    ensures room { OnOk result ((slice_index_or cells.old.items parent blank).children < max_children) }
{
    if cells.len() >= MAX_NODES {
        return Err(Problem::TooManyNodes);
    }
    let above = &mut cells[parent];
    if above.children >= MAX_CHILDREN {
        return Err(Problem::TooManyChildren);
    }
    above.children += 1;
    Ok(())
}

// Behind a complete tree: closes parentheses, and gives the parent of the next tree; none at the end of the plan.
fn close(cursor: &mut Cursor, parents: &mut Vec<usize>) -> Result<Option<usize>, Problem>
    ensures value { IfOk result (λ parent. close_at (reverse parents.old.items) cursor.old ≡ Ok ((parent, reverse parents.new.items), cursor.new)) }
    ensures onward { length cursor.new ≤ length cursor.old }
{
    while let Some(parent) = parents.last() {
        if cursor.take(b',') {
            return Ok(Some(*parent));
        }
        if !cursor.take(b')') {
            return Err(if cursor.is_empty() {
                Problem::Unclosed
            } else {
                Problem::Trailing
            });
        }
        parents.pop();
        cursor.skip_blanks();
    }
    if cursor.is_empty() {
        Ok(None)
    } else {
        Err(Problem::Trailing)
    }
}

// Behind a node: the parent of the next one, which is that node if it has children; none at the end of the plan.
fn next_parent(
    cursor: &mut Cursor,
    parents: &mut Vec<usize>,
    last: usize,
) -> Result<Option<usize>, Problem>
    ensures value { IfOk result (λ parent. next_at (reverse parents.old.items) last (past_blanks cursor.old) ≡ Ok ((parent, reverse parents.new.items), cursor.new)) }
    ensures onward { length cursor.new ≤ length cursor.old }
{
    cursor.skip_blanks();
    if cursor.take(b'(') {
        parents.push(last)?;
        return Ok(Some(last));
    }
    match cursor.peek() {
        None | Some(b',' | b')') => close(cursor, parents),
        Some(_) => Ok(Some(last)),
    }
}

fn read_cells(heap: Global, cursor: &mut Cursor) -> Result<Vec<Cell>, Problem>
    ensures made { IfOk result (λ v. ReadPlan (length cursor.old) v.items) }
    ensures reads { IfOk result (λ v. StandsFor cursor.old v.items) }
    ensures onward { length cursor.new ≤ length cursor.old }
{
    let mut cells = Vec::new(heap);
    // Places of nodes, since the cells stand in one table, in which a parent's count goes up.
    let mut parents = Vec::new(heap);
    cursor.skip_blanks();
    cells.push(cursor.node()?)?;
    while let Some(parent) = next_parent(cursor, &mut parents, cells.len() - 1)? {
        cursor.skip_blanks();
        count_child(&mut cells, parent)?;
        cells.push(cursor.node()?)?;
    }
    Ok(cells)
}

/// The cells that a text stands for; docs/notation.md has the notation.
pub fn read_plan(heap: Global, text: &str) -> Result<Vec<Cell>, Slip>
    ensures reads { IfOk result (λ v. StandsFor text.now v.items) }
    ensures cells { IfOk result (λ v. ReadPlan (length text.now) v.items) }
    ensures column { IfErr result (λ s. (1 ≤ s.column) × (s.column ≤ length text.now + 1)) }
{
    let mut cursor = Cursor::new(text.as_bytes());
    let read = read_cells(heap, &mut cursor);
    let column = cursor.column(text);
    read.map_err(|problem| Slip { problem, column })
}
