// Tries the checks at their edges, on plans too large or too broken to be written as text, and prints what each gets.
#![tactic(auto)]

use checks::{Fact, check, check_windows};
use operators::{CardinalityEffect, CatalogueSet, Declaration, DeclaredSet, Shape};
use plan::{Cell, Fault, Kind, MAX_NUMBER};
use std::alloc::{AllocError, Global};
use std::io;

fn row() -> Cell {
    Cell::new(Kind::PlaceholderRow, 0, 0)
}

fn scan(partitions: u32) -> Cell {
    Cell::new(Kind::Operator(CatalogueSet::SCAN), 0, partitions)
}

fn union_of(children: u8) -> Cell {
    Cell::new(Kind::Operator(CatalogueSet::UNION), children, 0)
}

fn window(parameter: u32) -> Cell {
    Cell::new(Kind::BoundedWindowAgg, 1, parameter)
}

/// So many projections over a placeholder row.
fn path(heap: Global, projections: usize) -> Result<Vec<Cell>, AllocError> {
    let mut cells = Vec::with_capacity(heap, projections.saturating_add(1))?;
    cells.resize(projections, Cell::new(Kind::Projection, 1, 0))?;
    cells.push(row())?;
    Ok(cells)
}

/// A union of so many scans.
fn union(heap: Global, scans: u8, partitions: u32) -> Result<Vec<Cell>, AllocError> {
    let mut cells = vec![in heap; union_of(scans)]?;
    cells.resize(1 + usize::from(scans), scan(partitions))?;
    Ok(cells)
}

/// A union of two unions and a scan.
fn unions(heap: Global, first: u8, second: u8, last: u32) -> Result<Vec<Cell>, AllocError> {
    let mut cells = vec![in heap; union_of(3)]?;
    cells.extend(union(heap, first, 64)?)?;
    cells.extend(union(heap, second, 64)?)?;
    cells.push(scan(last))?;
    Ok(cells)
}

fn tell<T: std::fmt::Display + Drop>(
    rt: &HostRuntime,
    what: &str,
    answer: Result<T, Fault>,
) -> io::Result<()> {
    match answer {
        Ok(granted) => println!(rt; "{what}: granted, {granted}"),
        Err(fault) => println!(rt; "{what}: {fault}"),
    }
}

/// Checks a plan with so many of its cells, and memory for so many facts.
fn try_plan(
    rt: &HostRuntime,
    what: &str,
    cells: &[Cell],
    count: usize,
    room: usize,
) -> io::Result<()> {
    let mut memory = vec![in rt.alloc(); Fact::BLANK; room]?;
    tell(rt, what, check(&CatalogueSet, cells, count, &mut memory))
}

fn try_whole(rt: &HostRuntime, what: &str, cells: &[Cell]) -> io::Result<()> {
    try_plan(rt, what, cells, cells.len(), cells.len())
}

fn counts(rt: &HostRuntime) -> io::Result<()> {
    let longest = path(rt.alloc(), 4095)?;
    let longer = path(rt.alloc(), 4096)?;
    try_whole(rt, "a path of 4096 cells", &longest)?;
    try_whole(rt, "a path of 4097 cells", &longer)?;
    try_plan(rt, "none of its cells", &longest, 0, 4096)?;
    try_plan(rt, "one cell more than the table has", &longest, 4097, 4097)?;
    try_plan(rt, "memory for 4096 facts of 4096", &longest, 4096, 4096)?;
    try_plan(rt, "memory for 4095 facts of 4096", &longest, 4096, 4095)?;
    try_plan(rt, "a path cut before its end", &longest, 4095, 4096)
}

fn trees(rt: &HostRuntime) -> io::Result<()> {
    let row = row();
    let projection = Cell::new(Kind::Projection, 1, 0);
    try_whole(rt, "a projection of nothing", &[projection])?;
    try_whole(rt, "a row after a closed tree", &[projection, row, row])?;
    try_whole(
        rt,
        "a union of three with two children",
        &[union_of(3), row, row],
    )?;
    try_whole(rt, "no cell at all", &[])?;
    try_whole(
        rt,
        "a node of 255 children, the last missing",
        &[union_of(255), row],
    )
}

fn fits(rt: &HostRuntime) -> io::Result<()> {
    let heap = rt.alloc();
    let row = row();
    let projection = |parameter| Cell::new(Kind::Projection, 1, parameter);
    let reserved = |number| Cell::new(Kind::Reserved(number), 1, 0);
    try_whole(rt, "63 children", &union(heap, 63, 1)?)?;
    try_whole(rt, "64 children", &union(heap, 64, 1)?)?;
    try_whole(rt, "parameter 32767", &[projection(32_767), row])?;
    try_whole(rt, "parameter 32768", &[projection(32_768), row])?;
    try_whole(rt, "kind 10", &[reserved(10), row])?;
    try_whole(rt, "kind 15", &[reserved(15), row])?;
    try_whole(rt, "a scan of 64 partitions", &[scan(64)])?;
    try_whole(rt, "a scan of 65 partitions", &[scan(65)])?;
    try_whole(rt, "window 5", &[window(5), row])?;
    try_whole(rt, "window 6", &[window(6), row])
}

fn fields(rt: &HostRuntime) -> io::Result<()> {
    let row = row();
    let local = Cell::new(Kind::LocalLimit, 1, 0);
    let global = Cell::new(Kind::GlobalLimit, 1, 0);
    let sort = Cell::new(Kind::Sort, 1, 0);
    let fetching = |rows| Cell {
        fetch: Some(rows),
        ..sort
    };
    let skipping = |skip| Cell { skip, ..global };
    try_whole(rt, "fetch 2^40 - 1", &[fetching(MAX_NUMBER), row])?;
    try_whole(rt, "fetch 2^40", &[fetching(MAX_NUMBER + 1), row])?;
    try_whole(rt, "skip 2^40 - 1", &[skipping(MAX_NUMBER), row])?;
    try_whole(rt, "skip 2^40", &[skipping(MAX_NUMBER + 1), row])?;
    try_whole(rt, "a skip on a sort", &[Cell { skip: 1, ..sort }, row])?;
    try_whole(rt, "a local limit without a fetch", &[local, row])?;
    let hinted = Cell {
        hint: Some(1),
        ..sort
    };
    try_whole(rt, "a hint on a sort", &[hinted, row])?;
    try_whole(rt, "a mark on a sort", &[Cell { mark: true, ..sort }, row])?;
    let marked = Cell {
        mark: true,
        ..global
    };
    try_whole(rt, "a mark on a limit", &[marked, row])
}

fn partitions(rt: &HostRuntime) -> io::Result<()> {
    let heap = rt.alloc();
    try_whole(rt, "4096 partitions", &unions(heap, 32, 31, 64)?)?;
    try_whole(rt, "more than 4096 partitions", &unions(heap, 32, 32, 1)?)
}

fn hints(rt: &HostRuntime) -> io::Result<()> {
    let row = row();
    let limit = |fetch, skip| Cell {
        fetch: Some(fetch),
        skip,
        ..Cell::new(Kind::GlobalLimit, 1, 0)
    };
    let aggregate = |hint| Cell {
        hint: Some(hint),
        ..Cell::new(Kind::Aggregate, 1, 0)
    };
    let near = limit(3, 2);
    let largest = aggregate(MAX_NUMBER);
    try_whole(rt, "hint 2^40 - 1", &[near, largest, row])?;
    try_whole(rt, "hint 2^40", &[near, aggregate(MAX_NUMBER + 1), row])?;
    try_whole(rt, "a hint under nothing", &[largest, row])?;
    try_whole(
        rt,
        "a hint under a need above 2^40",
        &[limit(MAX_NUMBER, MAX_NUMBER), largest, row],
    )
}

fn try_windows(rt: &HostRuntime, what: &str, cells: &[Cell]) -> io::Result<()> {
    let answer = check_windows(&CatalogueSet, cells);
    tell(rt, what, answer.map(|()| cells.len()))
}

fn windows(rt: &HostRuntime) -> io::Result<()> {
    let row = row();
    let ahead = window(1);
    let still = window(0);
    try_windows(rt, "two windows that look ahead", &[ahead, ahead, row])?;
    try_windows(
        rt,
        "one that does over one that does not",
        &[ahead, still, row],
    )?;
    try_windows(
        rt,
        "one that does not over one that does",
        &[still, ahead, row],
    )?;
    try_windows(rt, "an absolute one", &[window(4), still, row])?;
    let beside = [union_of(2), ahead, row, ahead, row];
    try_windows(rt, "two that look ahead beside each other", &beside)
}

const SOURCE: Shape = Shape::Source { partitions: 2 };

fn declaration(kind: u8, shape: Shape, fetch: bool) -> Declaration {
    Declaration {
        kind,
        shape,
        fetch,
        mark: false,
        effect: CardinalityEffect::Unknown,
    }
}

fn try_declared(rt: &HostRuntime, what: &str, list: &[Declaration]) -> io::Result<()> {
    let mut set = DeclaredSet::new();
    let answer = set.read(list);
    let held = set.declarations.len();
    print!(rt; "holds {held} after ")?;
    tell(rt, what, answer.map(|()| held))
}

fn declared(rt: &HostRuntime) -> io::Result<()> {
    let mut all: Vec<Declaration> = (16..=255)
        .map(|kind| declaration(kind, SOURCE, true))
        .collect(rt.alloc())?;
    try_declared(rt, "240 declarations", &all)?;
    all.push(declaration(3, SOURCE, true))?;
    try_declared(rt, "241 declarations", &all)?;
    let source = declaration(16, SOURCE, true);
    let low = declaration(15, SOURCE, false);
    let row_for_row = declaration(17, Shape::RowForRow, true);
    let each_partition = declaration(17, Shape::EachPartition, true);
    try_declared(rt, "kind 15", &[source, low])?;
    try_declared(rt, "a kind declared earlier", &[source, source])?;
    try_declared(rt, "row for row with a fetch", &[source, row_for_row])?;
    try_declared(rt, "each partition with a fetch", &[source, each_partition])
}

fn main(rt: HostRuntime) -> io::Result<()> {
    counts(&rt)?;
    trees(&rt)?;
    fits(&rt)?;
    fields(&rt)?;
    partitions(&rt)?;
    hints(&rt)?;
    windows(&rt)?;
    declared(&rt)
}
