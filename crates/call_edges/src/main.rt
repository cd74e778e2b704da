// Tries the calls of the rules at their edges, each with memory that is dirty before, and prints what each gets and leaves.
#![tactic(auto)]

use checks::Fact;
use limits::{Memory, Pending, Rule, call};
use operators::CatalogueSet;
use plan::{Cell, Kind, MAX_NUMBER};
use std::alloc::{AllocError, Global};
use std::io;

const ROW: Kind = Kind::PlaceholderRow;

const SCAN: Kind = Kind::Operator(CatalogueSet::SCAN);

const UNION: Kind = Kind::Operator(CatalogueSet::UNION);

fn limit(skip: u64, fetch: u64) -> Cell {
    Cell {
        fetch: Some(fetch),
        skip,
        ..Cell::new(Kind::GlobalLimit, 1, 0)
    }
}

/// How many entries each table and stack has.
#[derive(Clone, Copy)]
struct Sizes {
    plan: usize,
    work: usize,
    requirements: usize,
    facts: usize,
}

impl Sizes {
    /// Just enough for so many nodes.
    fn of(count: usize) -> Sizes {
        let twice = count.saturating_mul(2);
        Sizes {
            plan: twice,
            work: twice,
            requirements: count,
            facts: count,
        }
    }
}

/// The cells, and blank ones behind them, cut or filled to a size.
fn table_of(heap: Global, cells: &[Cell], size: usize) -> Result<Vec<Cell>, AllocError> {
    let mut table = Vec::from_slice(heap, cells)?;
    table.resize(size, Cell::BLANK)?;
    Ok(table)
}

/// Whether every entry is this one.
fn all_are<T: PartialEq>(items: &[T], blank: &T) -> bool {
    items.iter().all(|item| item == blank)
}

fn told(holds: bool) -> &'static str {
    if holds { "yes" } else { "no" }
}

/// One call with dirty memory of these sizes.
fn try_call(
    rt: &HostRuntime,
    what: &str,
    rule: Rule,
    cells: &[Cell],
    count: usize,
    sizes: Sizes,
) -> io::Result<()> {
    let heap = rt.alloc();
    let mut plan = table_of(heap, cells, sizes.plan)?;
    let before = table_of(heap, cells, sizes.plan)?;
    let dirt = Pending {
        subtrees: 9,
        ..Pending::BLANK
    };
    let fact = Fact {
        size: 9,
        ..Fact::BLANK
    };
    let mut work = vec![in heap; limit(7, 7); sizes.work]?;
    let mut requirements = vec![in heap; dirt; sizes.requirements]?;
    let mut facts = vec![in heap; fact; sizes.facts]?;
    let mut memory = Memory {
        work: work.as_mut_slice(),
        requirements: requirements.as_mut_slice(),
        facts: facts.as_mut_slice(),
    };
    match call(rule, &CatalogueSet, plan.as_mut_slice(), count, &mut memory) {
        Ok(nodes) => print!(rt; "{rule}, {what}: {nodes} nodes")?,
        Err(fault) => {
            let kept = told(plan.as_slice() == before.as_slice());
            print!(rt; "{rule}, {what}: {fault}, untouched: {kept}")?;
        }
    }
    let blank = all_are(work.as_slice(), &Cell::BLANK)
        && all_are(requirements.as_slice(), &Pending::BLANK)
        && all_are(facts.as_slice(), &Fact::BLANK);
    println!(rt; ", memory blank: {}", told(blank))
}

fn try_each(rt: &HostRuntime, what: &str, cells: &[Cell], sizes: Sizes) -> io::Result<()> {
    for rule in [Rule::Sink, Rule::Grow, Rule::Hint] {
        try_call(rt, what, rule, cells, cells.len(), sizes)?;
    }
    Ok(())
}

fn rooms(rt: &HostRuntime) -> io::Result<()> {
    let cells = [
        limit(2, 5),
        Cell::new(Kind::Projection, 1, 0),
        Cell::new(SCAN, 0, 1),
    ];
    let exact = Sizes::of(3);
    try_each(rt, "exactly enough room", &cells, exact)?;
    try_each(rt, "a plan cell less", &cells, Sizes { plan: 5, ..exact })?;
    try_each(rt, "a work cell less", &cells, Sizes { work: 5, ..exact })?;
    try_each(
        rt,
        "a requirement less",
        &cells,
        Sizes {
            requirements: 2,
            ..exact
        },
    )?;
    try_each(rt, "a fact less", &cells, Sizes { facts: 2, ..exact })?;
    try_each(
        rt,
        "no memory at all",
        &cells,
        Sizes {
            work: 0,
            requirements: 0,
            facts: 0,
            ..exact
        },
    )
}

fn refusals(rt: &HostRuntime) -> io::Result<()> {
    let row = Cell::new(ROW, 0, 0);
    let scan = Cell::new(SCAN, 0, 2);
    let hinted = Cell {
        hint: Some(4),
        ..Cell::new(Kind::Aggregate, 1, 0)
    };
    try_each(rt, "no cells", &[], Sizes::of(1))?;
    try_each(rt, "an open tree", &[limit(0, 1)], Sizes::of(1))?;
    try_each(
        rt,
        "kind 10",
        &[limit(0, 1), Cell::new(Kind::Reserved(10), 0, 0)],
        Sizes::of(2),
    )?;
    try_each(
        rt,
        "a hint on a row",
        &[
            limit(0, 1),
            Cell {
                hint: Some(1),
                ..row
            },
        ],
        Sizes::of(2),
    )?;
    try_each(
        rt,
        "a limit over two partitions",
        &[limit(0, 1), scan],
        Sizes::of(2),
    )?;
    try_each(
        rt,
        "a hint below the need",
        &[limit(2, 3), hinted, row],
        Sizes::of(3),
    )?;
    let window = Cell::new(Kind::BoundedWindowAgg, 1, 1);
    try_each(
        rt,
        "windows that look ahead",
        &[
            limit(0, 4),
            window,
            window,
            Cell::new(Kind::Sort, 1, 0),
            row,
        ],
        Sizes::of(5),
    )
}

fn sums(rt: &HostRuntime) -> io::Result<()> {
    let scan = Cell::new(SCAN, 0, 1);
    let aggregate = Cell::new(Kind::Aggregate, 1, 0);
    let sort = Cell::new(Kind::Sort, 1, 0);
    let window = Cell::new(Kind::BoundedWindowAgg, 1, 1);
    let four = Sizes::of(4);
    try_each(
        rt,
        "a sum of 2^40 - 1",
        &[limit(1, MAX_NUMBER - 1), aggregate, scan],
        Sizes::of(3),
    )?;
    try_each(
        rt,
        "a sum of 2^40",
        &[limit(1, MAX_NUMBER), aggregate, scan],
        Sizes::of(3),
    )?;
    try_each(
        rt,
        "limit and look-ahead of 2^40 - 1",
        &[limit(0, MAX_NUMBER - 3), window, sort, scan],
        four,
    )?;
    try_each(
        rt,
        "limit and look-ahead of 2^40",
        &[limit(0, MAX_NUMBER - 2), window, sort, scan],
        four,
    )?;
    try_each(
        rt,
        "skips of 2^40",
        &[limit(MAX_NUMBER, 1), limit(1, 1), sort, scan],
        four,
    )
}

/// A local limit over a union of placeholder rows: sink makes the most of it.
fn swelling(rt: &HostRuntime) -> io::Result<()> {
    let limit = Cell {
        fetch: Some(1),
        ..Cell::new(Kind::LocalLimit, 1, 0)
    };
    let union = Cell::new(UNION, 63, 0);
    let mut cells = Vec::from_slice(rt.alloc(), &[limit, union])?;
    cells.resize(65, Cell::new(ROW, 0, 0))?;
    try_each(rt, "a union of 63 rows", cells.as_slice(), Sizes::of(65))
}

/// The longest path that a plan may have.
fn longest(rt: &HostRuntime) -> io::Result<()> {
    let mut cells = Vec::with_capacity(rt.alloc(), 4096)?;
    cells.push(limit(2, 5))?;
    cells.resize(4095, Cell::new(Kind::Projection, 1, 0))?;
    cells.push(Cell::new(SCAN, 0, 1))?;
    try_each(
        rt,
        "a path of 4096 cells",
        cells.as_slice(),
        Sizes::of(4096),
    )
}

fn main(rt: HostRuntime) -> io::Result<()> {
    rooms(&rt)?;
    refusals(&rt)?;
    sums(&rt)?;
    swelling(&rt)?;
    longest(&rt)
}
