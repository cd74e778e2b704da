// The rules called on a plan, and what they change.
use crate::answers::show_tree;
use checks::Fact;
use limits::{Memory, Pending, RuleCall, run};
use operators::CatalogueSet;
use plan::Cell;
use std::alloc::{AllocError, Global};
use std::io;

fn show_call(rt: &HostRuntime, call: &RuleCall) -> io::Result<()> {
    let rule = call.rule;
    match call.answer {
        Some(Ok(count)) => println!(rt; "  {rule}: {count} nodes"),
        Some(Err(fault)) => println!(rt; "  {rule}: {fault}: {}", fault.refusal),
        None => println!(rt; "  {rule}: not called"),
    }
}

/// A plan table with room for what the rules may add.
fn table_of(heap: Global, cells: &[Cell]) -> Result<Vec<Cell>, AllocError> {
    let mut table = Vec::from_slice(heap, cells)?;
    table.resize(cells.len().saturating_mul(8), Cell::BLANK)?;
    Ok(table)
}

/// Calls the rules one after another, and shows each answer and the plan that they leave.
pub fn show_run(rt: &HostRuntime, cells: &[Cell], calls: &mut [RuleCall]) -> io::Result<()> {
    let heap = rt.alloc();
    let mut table = table_of(heap, cells)?;
    let room = table.len();
    let mut work = vec![in heap; Cell::BLANK; room]?;
    let mut requirements = vec![in heap; Pending::BLANK; room]?;
    let mut facts = vec![in heap; Fact::BLANK; room]?;
    let mut memory = Memory {
        work: work.as_mut_slice(),
        requirements: requirements.as_mut_slice(),
        facts: facts.as_mut_slice(),
    };
    let count = run(
        &CatalogueSet,
        calls,
        table.as_mut_slice(),
        cells.len(),
        &mut memory,
    );
    for call in calls.iter() {
        show_call(rt, call)?;
    }
    let after = table.get(0..count).unwrap_or(&[]);
    // The cells that the plan did not have before.
    show_tree(rt, after, '*', |_, cell| !cells.contains(cell))
}
