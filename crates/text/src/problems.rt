// What is wrong with a text, and where.
ghost use Rattle.std.specs.Prelude.{◌≡◌, ◌^◌, ◌<◌, Some};
ghost use Rattle.text.specs.Problems.{problem_text, slip_at, slip_text};
ghost use Rattle.text.specs.declared.problems.Problem.TheVariants.{NoMemory};

use std::alloc::{AllocError, AllocFailed};
use std::error::Error;
use std::fmt;

#[derive(Clone, Copy, PartialEq, Eq, Debug)]
pub enum Problem {
    /// A node is due, and none begins here.
    ExpectedNode,
    /// A letter that names no kind.
    UnknownKind,
    /// Digits are due.
    ExpectedNumber,
    /// A skip, a fetch or a hint above 2^40 - 1.
    NumberTooLarge,
    /// A parameter above 32,767.
    ParameterTooLarge,
    /// A kind above 255.
    KindTooLarge,
    /// A kind in digits without the `:` behind it.
    ExpectedColon,
    /// `G` without `(skip,fetch)` or `L` without `(fetch)`.
    ExpectedLimits,
    /// `(skip` without `,fetch)`.
    ExpectedComma,
    /// A bracket, brace or parenthesis of a node that is not closed behind its number.
    ExpectedClosing,
    /// A hint beside a skip above 0.
    HintBesideSkip,
    /// A 64th child.
    TooManyChildren,
    /// A 4,097th node.
    TooManyNodes,
    /// A parenthesis of children that the text's end leaves open.
    Unclosed,
    /// Something behind the end of the plan, or of a node's children.
    Trailing,
    /// A hexadecimal digit is due.
    ExpectedHexDigit,
    /// There is no memory left.
    NoMemory,
}

impl Problem {
    // The problem at a place, counted from 0.
    pub(crate) fn at(self, place: usize) -> Slip
        requires { place < 2 ^ 63 }
        ensures { result ≡ slip_at self place }
    {
        Slip {
            problem: self,
            column: place + 1,
        }
    }
}

impl From<AllocError> for Problem {
    ghost from_gives = { λ _ problem. problem ≡ NoMemory };

    fn from(_error: AllocError) -> Self {
        Self::NoMemory
    }
}

impl<T: Drop> From<AllocFailed<T>> for Problem {
    ghost from_gives = { λ _ problem. problem ≡ NoMemory };

    fn from(failed: AllocFailed<T>) -> Self {
        AllocError::from(failed).into()
    }
}

impl fmt::Display for Problem {
    ghost output = { λ problem. Some (problem_text problem) };

    fn fmt<W: fmt::Write>(&self, f: &mut fmt::Formatter<W>) -> fmt::Result {
        f.write_str(match self {
            Problem::ExpectedNode => "a node is expected here",
            Problem::UnknownKind => "this letter names no kind",
            Problem::ExpectedNumber => "a number is expected here",
            Problem::NumberTooLarge => "this number is above 1099511627775",
            Problem::ParameterTooLarge => "this parameter is above 32767",
            Problem::KindTooLarge => "this kind is above 255",
            Problem::ExpectedColon => "`:` and a parameter are expected behind a kind in digits",
            Problem::ExpectedLimits => "`(skip,fetch)` is expected behind G, `(fetch)` behind L",
            Problem::ExpectedComma => "`,` and a fetch are expected behind the skip",
            Problem::ExpectedClosing => "the closing bracket is expected behind the number",
            Problem::HintBesideSkip => "a hint and a skip above 0 cannot stand on one node",
            Problem::TooManyChildren => "this child is one above the 63 that a node may have",
            Problem::TooManyNodes => "this node is one above the 4096 that a plan may have",
            Problem::Unclosed => "a `)` is missing at the end",
            Problem::Trailing => "the plan has ended before this",
            Problem::ExpectedHexDigit => "a hexadecimal digit is expected here",
            Problem::NoMemory => "there is no memory left",
        })
    }
}

impl Error for Problem {}

/// A problem and the column, counted from 1, of the first character that it is about.
#[derive(Clone, Copy, PartialEq, Eq, Debug)]
pub struct Slip {
    pub problem: Problem,
    pub column: usize,
}

impl fmt::Display for Slip {
    ghost output = { λ slip. Some (slip_text slip) };

    fn fmt<W: fmt::Write>(&self, f: &mut fmt::Formatter<W>) -> fmt::Result {
        write!(f, "column {}: {}", self.column, self.problem)
    }
}

impl Error for Slip {}
