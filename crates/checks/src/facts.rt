// What is known of each subtree without its rows.
ghost use Rattle.std.specs.Prelude.{◌≡◌, ◌+◌, ◌*◌, ◌^◌, ◌≤◌, [], length, drop, if◌then◌else◌, Ok};
ghost use Rattle.plan.specs.Numbers.{max_nodes};
ghost use Rattle.plan.specs.Refusals.{refused_at};
ghost use Rattle.plan.specs.Stacks.{content, room};
ghost use Rattle.plan.specs.declared.refusals.Refusal.TheVariants.{Partitions};
ghost use Rattle.operators.specs.Answers.{Answers};
ghost use Rattle.checks.specs.Tree.{tree_of};
ghost use Rattle.checks.specs.Facts.{is_empty, head_fact, together, rows_known, fact_with, every_fact, miscounted, counted_from, next_facts, Bounded};

use operators::{OperatorSet, known_empty, partitions};
use plan::{Cell, Fault, Kind, MAX_PARTITIONS, Refusal, Stack};

/// What is known of how many rows a subtree has.
#[derive(Clone, Copy, PartialEq, Eq, Debug)]
pub enum KnownRows {
    Unknown,
    /// Known empty.
    NoRow,
    OneRow,
}

impl KnownRows {
    fn is_empty(self) -> bool
        ensures { result ≡ is_empty self }
    {
        matches!(self, KnownRows::NoRow)
    }
}

/// What is known of a node's subtree.
#[derive(Clone, Copy, PartialEq, Eq, Debug)]
pub struct Fact {
    /// How many cells it has.
    pub size: usize,
    /// How many partitions its root has.
    pub partitions: u64,
    pub rows: KnownRows,
}

/// What is known of a node's children together.
#[derive(Clone, Copy)]
struct Children {
    size: usize,
    partitions: u64,
    /// Whether each of them is known empty.
    empty: bool,
}

/// What is known of the next subtrees together: each next one stands behind the cells of the one before it.
fn gather(children: u8, known: &Stack<Fact>) -> Children
    requires bounded { Bounded (content known.now) }
    requires few { length (content known.now) ≤ max_nodes }
    ensures value { result ≡ together (next_facts children (content known.now)) }
    ensures size { result.size ≤ length (content known.now) }
    ensures partitions { result.partitions ≤ 2 ^ 32 * result.size }
{
    let mut all = Children {
        size: 0,
        partitions: 0,
        empty: true,
    };
    for _ in 0..children {
        let child = Fact::at(known, all.size);
        all.size += child.size;
        all.partitions += child.partitions;
        all.empty &= child.rows.is_empty();
    }
    all
}

fn known_rows<O: OperatorSet>(set: &O, cell: &Cell, all_empty: bool, child: KnownRows) -> KnownRows
    ensures { result ≡ rows_known (O.OperatorSet.answers set.now) cell.now all_empty child }
{
    match Kind::from(cell.kind) {
        Kind::PlaceholderRow => KnownRows::OneRow,
        Kind::Projection => child,
        _ if known_empty(set, cell, all_empty) => KnownRows::NoRow,
        _ => KnownRows::Unknown,
    }
}

impl Fact {
    pub const BLANK: Fact = Fact {
        size: 0,
        partitions: 0,
        rows: KnownRows::Unknown,
    };

    /// The fact so many below the top of the stack; the blank one if there are not so many.
    pub fn at(known: &Stack<Fact>, depth: usize) -> Fact
        ensures { result ≡ head_fact (drop depth (content known.now)) }
    {
        known.peek(depth).unwrap_or(Fact::BLANK)
    }

    /// The fact of a cell whose children's subtrees are the next.
    fn of<O: OperatorSet>(set: &O, cell: &Cell, known: &Stack<Fact>) -> Fact
        requires bounded { Bounded (content known.now) }
        requires few { length (content known.now) + 1 ≤ max_nodes }
        ensures value { result ≡ fact_with (O.OperatorSet.answers set.now) cell.now (next_facts cell.now.children (content known.now)) (head_fact (content known.now)).rows }
        ensures size { result.size ≤ 1 + length (content known.now) }
        ensures partitions { result.partitions ≤ 2 ^ 32 * result.size }
    {
        let children = gather(cell.children, known);
        Fact {
            size: 1 + children.size,
            partitions: partitions(set, cell, children.partitions),
            rows: known_rows(set, cell, children.empty, Fact::at(known, 0).rows),
        }
    }
}

/// Puts the fact of each cell on the empty stack, the last cell's first.
pub(super) fn put_facts<O: OperatorSet>(set: &O, cells: &[Cell], known: &mut Stack<Fact>)
    requires tree { tree_of cells.now ≡ Ok tt }
    requires few { length cells.now ≤ max_nodes }
    requires empty { content known.old ≡ [] }
    requires room { length cells.now ≤ room known.old }
    ensures loan { known.new.items.ghost_name ≡ known.old.items.ghost_name }
    ensures facts { content known.new ≡ every_fact (O.OperatorSet.answers set.now) cells.now }
{
    for cell in cells.iter().rev() {
        let own = Fact::of(set, cell, known);
        // there is room for as many facts as cells
        let _ = known.push(own);
    }
}

/// Whether a node has no partition or too many, or is a global limit over a child of not exactly one.
fn is_miscounted(cell: &Cell, own: u64, child: u64) -> bool
    ensures { result ≡ miscounted cell.now own child }
{
    own == 0
        || own > MAX_PARTITIONS
        || matches!(Kind::from(cell.kind), Kind::GlobalLimit) && child != 1
}

/// The first cell whose partitions are miscounted is refused, at its place, if the stack holds the facts of the cells.
pub(super) fn check_partitions(cells: &[Cell], known: &Stack<Fact>) -> Result<(), Fault>
    ensures { (a : Answers) → content known.now ≡ every_fact a cells.now → result ≡ counted_from a 0 cells.now }
{
    for (place, cell) in cells.iter().enumerate() {
        let own = Fact::at(known, place);
        let child = Fact::at(known, place + 1);
        if is_miscounted(cell, own.partitions, child.partitions) {
            return Err(Refusal::Partitions.at(place));
        }
    }
    Ok(())
}
