// A cell as a line of text: the operator's name, and what is to be said of it.
ghost use Rattle.std.specs.Prelude.{◌≡◌, IfOk, Some, codes, string_bytes};
ghost use Rattle.std.specs.Fmt.{DisplaysOnOk};
ghost use Rattle.explain.specs.Details.{detail_text, details_text, said};
ghost use Rattle.explain.specs.Lines.{name_of, named, parameter_text, skip_text, fetch_text, line_of};

use operators::CatalogueSet;
use plan::{Cell, Kind};
use std::alloc::{AllocError, Global};
use std::fmt;

// What is said of an operator besides its name.
#[derive(Clone, Copy)]
enum Detail {
    Window(u32),
    Aggregate(u32),
    Partitions(u32),
    Parameter(u32),
    Skip(u64),
    NoFetch,
    Fetch(u64),
    TopK(u64),
    Hint(u64),
    Ordered,
}

impl fmt::Display for Detail {
    ghost output = { λ detail. Some (detail_text detail) };

    fn fmt<W: fmt::Write>(&self, f: &mut fmt::Formatter<W>) -> fmt::Result {
        match *self {
            Detail::Window(number) => write!(f, "window={number}"),
            Detail::Aggregate(number) => write!(f, "aggregate={number}"),
            Detail::Partitions(count) => write!(f, "partitions={count}"),
            Detail::Parameter(number) => write!(f, "parameter={number}"),
            Detail::Skip(skip) => write!(f, "skip={skip}"),
            Detail::NoFetch => f.write_str("fetch=None"),
            Detail::Fetch(fetch) => write!(f, "fetch={fetch}"),
            Detail::TopK(fetch) => write!(f, "TopK(fetch={fetch})"),
            Detail::Hint(hint) => write!(f, "lim=[{hint}]"),
            Detail::Ordered => f.write_str("ordered"),
        }
    }
}

// The parameter, where it is not 0 or its operator always shows it.
fn parameter(cell: &Cell) -> Option<Detail>
    ensures { said result ≡ parameter_text cell.now }
{
    let number = cell.parameter;
    match Kind::from(cell.kind) {
        Kind::BoundedWindowAgg => Some(Detail::Window(number)),
        Kind::Aggregate => Some(Detail::Aggregate(number)),
        Kind::Operator(CatalogueSet::SCAN | CatalogueSet::REPARTITION) => {
            Some(Detail::Partitions(number))
        }
        _ => (number != 0).then_some(Detail::Parameter(number)),
    }
}

// On a global limit also where it is 0.
fn skip(cell: &Cell) -> Option<Detail>
    ensures { said result ≡ skip_text cell.now }
{
    let is_shown = cell.skip != 0 || Kind::from(cell.kind) == Kind::GlobalLimit;
    is_shown.then_some(Detail::Skip(cell.skip))
}

// On a limit also where there is none.
fn fetch(cell: &Cell) -> Option<Detail>
    ensures { said result ≡ fetch_text cell.now.fetch cell.now.kind }
{
    match (cell.fetch, Kind::from(cell.kind)) {
        (Some(fetch), Kind::Sort) => Some(Detail::TopK(fetch)),
        (Some(fetch), _) => Some(Detail::Fetch(fetch)),
        (None, Kind::GlobalLimit | Kind::LocalLimit) => Some(Detail::NoFetch),
        (None, _) => None,
    }
}

fn write_name<W: fmt::Write>(f: &mut fmt::Formatter<W>, kind: u8) -> fmt::Result
    ensures { DisplaysOnOk W.write_str_gives f.old result (Some (named (name_of kind) kind)) f.new }
{
    let name = match Kind::from(kind) {
        Kind::Empty => "EmptyExec",
        Kind::PlaceholderRow => "PlaceholderRowExec",
        Kind::GlobalLimit => "GlobalLimitExec",
        Kind::LocalLimit => "LocalLimitExec",
        Kind::Projection => "ProjectionExec",
        Kind::CoalescePartitions => "CoalescePartitionsExec",
        Kind::SortPreservingMerge => "SortPreservingMergeExec",
        Kind::Sort => "SortExec",
        Kind::BoundedWindowAgg => "BoundedWindowAggExec",
        Kind::Aggregate => "AggregateExec",
        Kind::Operator(CatalogueSet::SCAN) => "DataSourceExec",
        Kind::Operator(CatalogueSet::FILTER) => "FilterExec",
        Kind::Operator(CatalogueSet::UNION) => "UnionExec",
        Kind::Operator(CatalogueSet::REPARTITION) => "RepartitionExec",
        Kind::Reserved(_) | Kind::Operator(_) => return write!(f, "OperatorExec(kind={kind})"),
    };
    f.write_str(name)
}

// The details that there are: a colon before the first, a comma before each other.
fn write_details<W: fmt::Write>(
    f: &mut fmt::Formatter<W>,
    details: &[Option<Detail>],
) -> fmt::Result
    ensures { DisplaysOnOk W.write_str_gives f.old result (Some (details_text (codes ": ") details.now)) f.new }
{
    let mut gap = ": ";
    for detail in details {
        let Some(detail) = detail else { continue };
        write!(f, "{gap}{detail}")?;
        gap = ", ";
    }
    Ok(())
}

// A cell, without its children.
#[derive(Clone, Copy)]
struct Line<'a>(&'a Cell);

impl fmt::Display for Line<'_> {
    ghost output = { λ line. Some (line_of line.0.now) };

    fn fmt<W: fmt::Write>(&self, f: &mut fmt::Formatter<W>) -> fmt::Result {
        let cell = self.0;
        write_name(f, cell.kind)?;
        let details = [
            parameter(cell),
            skip(cell),
            fetch(cell),
            cell.hint.map(Detail::Hint),
            cell.mark.then_some(Detail::Ordered),
        ];
        write_details(f, &details)
    }
}

/// The cell as a line of DataFusion's EXPLAIN, without its children: `GlobalLimitExec: skip=2, fetch=5`.
pub fn describe(heap: Global, cell: &Cell) -> Result<String, AllocError>
    ensures { IfOk result (λ s. string_bytes s ≡ line_of cell.now) }
{
    Line(cell).to_string(heap)
}
