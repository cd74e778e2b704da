// Cells written in the notation.
ghost use Rattle.std.specs.Prelude.{◌≡◌, true, [], ◌++◌, replicate, IfOk, Some, string_bytes, OnOk};
ghost use Rattle.std.specs.Fmt.{DisplaysOnOk};
ghost use Rattle.writing.specs.Written.{fetch_text, head_text, limits_text, plus_text, node_text, link_text, linked, still_due, written};

use crate::awaited::Awaited;
use plan::{Cell, Kind};
use std::alloc::{AllocError, Global};
use std::fmt;
use text::letter_of;

// A fetch, or `-` for none.
#[derive(Clone, Copy)]
struct Fetch(Option<u64>);

impl fmt::Display for Fetch {
    ghost output = { λ fetch. Some (fetch_text fetch.0) };

    fn fmt<W: fmt::Write>(&self, f: &mut fmt::Formatter<W>) -> fmt::Result {
        match self.0 {
            Some(fetch) => write!(f, "{fetch}"),
            None => f.write_str("-"),
        }
    }
}

// A node without its children.
#[derive(Clone, Copy)]
struct Node<'a>(&'a Cell);

impl fmt::Display for Node<'_> {
    ghost output = { λ node. Some (node_text node.0.now) };

    fn fmt<W: fmt::Write>(&self, f: &mut fmt::Formatter<W>) -> fmt::Result {
        let cell = self.0;
        write_head(f, cell)?;
        write_limits(f, cell)?;
        if let Some(hint) = cell.hint {
            write!(f, "{{{hint}}}")?;
        }
        write_plus(f, cell)?;
        if cell.mark {
            f.write_str("!")?;
        }
        Ok(())
    }
}

// The letter of the kind, and the parameter where it is not 0; both in digits where the kind has no letter.
fn write_head<W: fmt::Write>(f: &mut fmt::Formatter<W>, cell: &Cell) -> fmt::Result
    ensures { DisplaysOnOk W.write_str_gives f.old result (Some (head_text cell.now)) f.new }
{
    match (letter_of(cell.kind), cell.parameter) {
        (Some(letter), 0) => write!(f, "{letter}"),
        (Some(letter), parameter) => write!(f, "{letter}{parameter}"),
        (None, parameter) => write!(f, "{}:{parameter}", cell.kind),
    }
}

// `(skip,fetch)` behind G, `(fetch)` behind L, `[fetch]` behind others that have one.
fn write_limits<W: fmt::Write>(f: &mut fmt::Formatter<W>, cell: &Cell) -> fmt::Result
    ensures { DisplaysOnOk W.write_str_gives f.old result (Some (limits_text cell.now)) f.new }
{
    match (Kind::from(cell.kind), cell.fetch) {
        (Kind::GlobalLimit, fetch) => write!(f, "({},{})", cell.skip, Fetch(fetch)),
        (Kind::LocalLimit, fetch) => write!(f, "({})", Fetch(fetch)),
        (_, Some(fetch)) => write!(f, "[{fetch}]"),
        (_, None) => Ok(()),
    }
}

// The skip of a cell that is no G, where it is not 0.
fn write_plus<W: fmt::Write>(f: &mut fmt::Formatter<W>, cell: &Cell) -> fmt::Result
    ensures { DisplaysOnOk W.write_str_gives f.old result (Some (plus_text cell.now)) f.new }
{
    match (Kind::from(cell.kind), cell.skip) {
        (Kind::GlobalLimit, _) | (_, 0) => Ok(()),
        (_, skip) => write!(f, "+{skip}"),
    }
}

// What stands behind a node with so many children. Gives whether a further node is due.
fn write_link(out: &mut String, awaited: &mut Awaited, children: u8) -> Result<bool, AllocError>
    ensures text { OnOk result (string_bytes out.new ≡ string_bytes out.old ++ link_text children awaited.old) }
    ensures after { OnOk result (awaited.new ≡ linked children awaited.old) }
    ensures due { IfOk result (λ d. d ≡ still_due children awaited.old) }
{
    match children {
        0 => {
            for _ in 0..awaited.complete() {
                out.push_str(")")?;
            }
            if awaited.depth() == 0 {
                return Ok(false);
            }
            out.push_str(", ")?;
        }
        1 => out.push_str(" ")?,
        _ => {
            awaited.await_children(children)?;
            out.push_str("(")?;
        }
    }
    Ok(true)
}

/// The cells in the notation. Where they are several trees, ` | ` stands between them; where cells are missing at the end, `?` does.
pub fn write_plan(heap: Global, cells: &[Cell]) -> Result<String, AllocError>
    ensures { IfOk result (λ s. string_bytes s ≡ written true [] cells.now) }
{
    let mut out = String::new(heap);
    let mut awaited = Awaited::new(heap);
    let mut due = true;
    for cell in cells {
        let gap = if due { "" } else { " | " };
        write!(out, "{gap}{}", Node(cell))?;
        due = write_link(&mut out, &mut awaited, cell.children)?;
    }
    if due {
        out.push_str("?")?;
    }
    Ok(out)
}
