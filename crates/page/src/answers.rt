// What there is to say of a plan.
use crate::runs::show_run;
use checks::{Fact, check};
use explain::describe;
use limits::RuleCall;
use operators::CatalogueSet;
use plan::{Cell, Fault};
use records::{RECORD, pack, unpack};
use std::alloc::{AllocError, Global};
use std::fmt::Style;
use std::io;
use text::write_hex;
use writing::{depths, write_plan};

fn show_fault(rt: &HostRuntime, fault: Fault) -> io::Result<()> {
    println!(rt; "  {fault}: {}", fault.refusal)
}

/// A line for each cell, further in for each node that it stands below, with a mark in front of those that pass a test.
pub fn show_tree<F: Fn(usize, &Cell) -> bool>(
    rt: &HostRuntime,
    cells: &[Cell],
    mark: char,
    is_marked: F,
) -> io::Result<()>
    requires { F.IsAlwaysCallable is_marked }
{
    let levels = depths(rt.alloc(), cells)?;
    for (place, (cell, depth)) in cells.iter().zip(levels.iter()).enumerate() {
        let line = describe(rt.alloc(), cell)?;
        let front = if is_marked(place, cell) { mark } else { ' ' };
        println!(rt; "{front} {}{line}", "".width(depth.saturating_mul(2)))?;
    }
    Ok(())
}

fn check_cells(heap: Global, cells: &[Cell]) -> Result<Result<u64, Fault>, AllocError> {
    let mut memory = vec![in heap; Fact::BLANK; cells.len()]?;
    Ok(check(&CatalogueSet, cells, cells.len(), memory.as_mut_slice()))
}

/// The tree, with an arrow to the cell that is refused, and what the check answers: whether it is accepted.
fn show_checked(rt: &HostRuntime, cells: &[Cell]) -> io::Result<bool> {
    match check_cells(rt.alloc(), cells)? {
        Ok(partitions) => {
            show_tree(rt, cells, '>', |_, _| false)?;
            println!(rt; "  accepted, partitions: {partitions}")?;
            Ok(true)
        }
        Err(fault) => {
            show_tree(rt, cells, '>', |place, _| place == fault.place)?;
            show_fault(rt, fault)?;
            Ok(false)
        }
    }
}

fn show_bytes(rt: &HostRuntime, cells: &[Cell]) -> io::Result<()> {
    let room = cells.len().saturating_mul(RECORD);
    let mut bytes = vec![in rt.alloc(); 0u8; room]?;
    match pack(cells, bytes.as_mut_slice()) {
        Ok(_) => {
            let text = write_hex(rt.alloc(), bytes.as_slice())?;
            println!(rt; "  packed {text}")
        }
        Err(fault) => show_fault(rt, fault),
    }
}

/// A plan in the notation, and what the rules make of it.
pub fn show_plan(
    rt: &HostRuntime,
    number: usize,
    cells: &[Cell],
    calls: &mut [RuleCall],
) -> io::Result<()> {
    let text = write_plan(rt.alloc(), cells)?;
    println!(rt; "plan {number}: {text}")?;
    if show_checked(rt, cells)? {
        show_run(rt, cells, calls)?;
    }
    show_bytes(rt, cells)?;
    println!(rt; "")
}

/// A plan as packed bytes.
pub fn show_packed(
    rt: &HostRuntime,
    number: usize,
    bytes: &[u8],
    calls: &mut [RuleCall],
) -> io::Result<()> {
    let mut table = vec![in rt.alloc(); Cell::BLANK; bytes.len() / RECORD]?;
    match unpack(bytes, table.as_mut_slice()) {
        Ok(_) => show_plan(rt, number, table.as_slice(), calls),
        Err(fault) => {
            println!(rt; "plan {number}:")?;
            show_fault(rt, fault)?;
            println!(rt; "")
        }
    }
}
