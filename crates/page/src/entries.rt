// What a line of input holds.
use limits::{Rule, RuleCall};
use notation::read_plan;
use plan::Cell;
use std::alloc::{AllocError, AllocFailed, Global};
use text::{Slip, read_hex};

const PACKED: &str = "packed";

#[derive(Drop)]
pub enum Entry {
    Plan(Vec<Cell>),
    Packed(Vec<u8>),
}

/// A plan, and the calls to make on it.
#[derive(Drop)]
pub struct Served {
    pub entry: Entry,
    pub calls: Vec<RuleCall>,
}

/// Why a line is not served.
#[derive(Drop)]
pub enum Trouble<'a> {
    /// A word that names no rule.
    Stray(&'a str),
    /// A text that is no plan.
    Slip(Slip),
    NoMemory(AllocError),
}

impl From<Slip> for Trouble<'_> {
    fn from(slip: Slip) -> Self {
        Trouble::Slip(slip)
    }
}

impl From<AllocError> for Trouble<'_> {
    fn from(e: AllocError) -> Self {
        Trouble::NoMemory(e)
    }
}

impl<T: Drop> From<AllocFailed<T>> for Trouble<'_> {
    fn from(e: AllocFailed<T>) -> Self {
        Trouble::NoMemory(e.into())
    }
}

/// Whether a line holds nothing to be read.
pub fn is_passed_over(line: &str) -> bool {
    line.trim().is_empty() || line.starts_with('#')
}

/// The calls of the rules that these words name, or the first word that names none: it is looked for before there is a list, so that it
/// is told whatever memory there is.
fn read_calls(heap: Global, words: &str) -> Result<Vec<RuleCall>, Trouble<'_>> {
    let is_stray = |word: &&str| word.parse::<Rule>().is_err();
    if let Some(word) = words.split_whitespace().find(is_stray) {
        return Err(Trouble::Stray(word));
    }
    let mut calls = Vec::new(heap);
    for word in words.split_whitespace() {
        let Ok(rule) = word.parse::<Rule>() else {
            return Err(Trouble::Stray(word));
        };
        calls.push(RuleCall { rule, answer: None })?;
    }
    Ok(calls)
}

fn read_entry(heap: Global, plan: &str) -> Result<Entry, Slip> {
    let Some(hex) = plan.strip_prefix(PACKED) else {
        return Ok(Entry::Plan(read_plan(heap, plan)?));
    };
    match read_hex(heap, hex) {
        Ok(bytes) => Ok(Entry::Packed(bytes)),
        Err(slip) => Err(Slip {
            column: slip.column.saturating_add(PACKED.len()),
            ..slip
        }),
    }
}

/// The plan of a line, and the calls of the rules that it names behind `>`; hint, sink and grow where it names none.
pub fn read_line(heap: Global, line: &str) -> Result<Served, Trouble<'_>> {
    let (plan, rules) = line.split_once('>').unwrap_or((line, "hint sink grow"));
    let calls = read_calls(heap, rules)?;
    let entry = read_entry(heap, plan)?;
    Ok(Served { entry, calls })
}
