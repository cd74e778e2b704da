// Whether the cells are one tree.
ghost use Rattle.std.specs.Prelude.{◌≡◌};
ghost use Rattle.checks.specs.Tree.{tree_of};

use plan::{Cell, Fault, Refusal};

/// The place of a refusal is the first cell after a closed tree, or the count if the tree is open.
#[tactic(auto, using(crate::proofs::Walks::cells_more))]
pub(super) fn check_tree(cells: &[Cell]) -> Result<(), Fault>
    ensures { result ≡ tree_of cells.now }
{
    // each of 2^64 cells may call for 255 trees
    let mut trees: u128 = 1;
    for (place, cell) in cells.iter().enumerate() {
        if trees == 0 {
            return Err(Refusal::Tree.at(place));
        }
        let children = cell.children;
        trees = trees - 1 + u128::from(children);
    }
    if trees == 0 {
        return Ok(());
    }
    Err(Refusal::Tree.at(cells.len()))
}
