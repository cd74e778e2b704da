// Reads saved plans from standard input, one a line, in the notation or as packed bytes; behind `>` may stand the rules to call. It draws
// each plan as a tree, says whether it is accepted or which refusal it gets and where, calls the rules on it and draws what they leave,
// and prints the packed bytes of the plan that came in. Blank lines and lines that begin with `#` are passed over. A line that cannot be
// read is named with its column, one with a word that names no rule with that word, and the lines behind it are still served.
#![tactic(auto)]

mod answers;
mod entries;
mod runs;

use answers::{show_packed, show_plan};
use entries::{Entry, Served, Trouble, is_passed_over, read_line};
use std::fmt::Style;
use std::io;
use text::Slip;

fn show_slip(rt: &HostRuntime, place: usize, line: &str, slip: Slip) -> io::Result<()> {
    println!(rt; "line {place}, {slip}")?;
    println!(rt; "  {line}")?;
    println!(rt; "{}", "^".right().width(slip.column.saturating_add(2)))?;
    println!(rt; "")
}

fn show_stray(rt: &HostRuntime, place: usize, line: &str, word: &str) -> io::Result<()> {
    println!(rt; "line {place}: {word} is not a rule; the rules are sink, grow and hint")?;
    println!(rt; "  {line}")?;
    println!(rt; "")
}

fn show_served(rt: &HostRuntime, number: usize, served: Served) -> io::Result<()> {
    let Served { entry, mut calls } = served;
    match entry {
        Entry::Plan(cells) => show_plan(rt, number, &cells, calls.as_mut_slice()),
        Entry::Packed(bytes) => show_packed(rt, number, &bytes, calls.as_mut_slice()),
    }
}

// Serves a line, and gives the number of the last plan that was read.
fn serve(rt: &HostRuntime, place: usize, line: &str, number: usize) -> io::Result<usize> {
    if is_passed_over(line) {
        return Ok(number);
    }
    match read_line(rt.alloc(), line) {
        Ok(served) => {
            let next = number.saturating_add(1);
            show_served(rt, next, served)?;
            return Ok(next);
        }
        Err(Trouble::Stray(word)) => show_stray(rt, place, line, word)?,
        Err(Trouble::Slip(slip)) => show_slip(rt, place, line, slip)?,
        Err(Trouble::NoMemory(e)) => return Err(e.into()),
    }
    Ok(number)
}

fn main(rt: HostRuntime) -> io::Result<()> {
    let mut number = 0;
    for (place, line) in rt.lines(rt.alloc()).enumerate() {
        let text = line?;
        number = serve(&rt, place.saturating_add(1), text.as_str(), number)?;
    }
    Ok(())
}
