// How deep the cells of a table stand.
ghost use Rattle.std.specs.Prelude.{◌≡◌, [], length, IfOk, vec_len, OnOk};
ghost use Rattle.writing.specs.Awaits.{after_cell, depths_from};

use crate::awaited::Awaited;
use plan::Cell;
use std::alloc::{AllocError, Global};

// What is awaited behind a cell.
fn follow(awaited: &mut Awaited, cell: &Cell) -> Result<(), AllocError>
    ensures { OnOk result (awaited.new ≡ after_cell cell.now awaited.old) }
{
    if cell.children > 0 {
        awaited.await_children(cell.children)?;
    } else {
        awaited.complete();
    }
    Ok(())
}

/// How deep each cell stands in its tree. Where the cells are more than one tree, each tree begins at depth 0. No iterator, since each step may
/// run out of memory.
pub fn depths(heap: Global, cells: &[Cell]) -> Result<Vec<usize>, AllocError>
    ensures value { IfOk result (λ v. v.items ≡ depths_from [] cells.now) }
    ensures len { IfOk result (λ v. vec_len v ≡ length cells.now) }
{
    let mut depths = Vec::new(heap);
    let mut awaited = Awaited::new(heap);
    for cell in cells {
        depths.push(awaited.depth())?;
        follow(&mut awaited, cell)?;
    }
    Ok(depths)
}
