// One node of a plan, read from a place on: `H4`, `20:4`, `G(2,5)!`, `A0{5}`.
ghost use Rattle.std.specs.Prelude.{◌≡◌, ◌≤◌, length};
ghost use Rattle.notation.specs.Cursors.{parsed};
ghost use Rattle.notation.specs.Nodes.{amount_at, parameter_at, enclosed_at, bracketed_at, last_limit_at, limits_at, own_skip_at, suffixes_at, numbered_at, own_parameter_at, lettered_at, node_at};

use crate::cursor::Cursor;
use plan::{Cell, Kind, MAX_NUMBER, MAX_PARAMETER};
use text::{Problem, kind_of};

// The numbers that stand right behind a node's parameter.
#[derive(Clone, Copy)]
struct Limits {
    // Of a global limit; the skip of another node may still stand behind its hint.
    skip: Option<u64>,
    fetch: Option<u64>,
}

impl Cursor<'_> {
    // A skip, a fetch or a hint.
    fn amount(&mut self) -> Result<u64, Problem>
        ensures value { parsed result self.new ≡ amount_at self.old }
        ensures onward { length self.new ≤ length self.old }
    {
        self.number(MAX_NUMBER, Problem::NumberTooLarge)
    }

    // A parameter.
    fn parameter(&mut self) -> Result<u32, Problem>
        ensures value { parsed result self.new ≡ parameter_at self.old }
        ensures onward { length self.new ≤ length self.old }
    {
        // The cast fits, here and at a kind: `try_from` would add a branch that never runs.
        let number = self.number(u64::from(MAX_PARAMETER), Problem::ParameterTooLarge)?;
        Ok(number as u32)
    }

    // A number and the bracket behind it.
    fn enclosed(&mut self, after: u8) -> Result<u64, Problem>
        ensures value { parsed result self.new ≡ enclosed_at after self.old }
        ensures onward { length self.new ≤ length self.old }
    {
        let number = self.amount()?;
        self.expect(after, Problem::ExpectedClosing)?;
        Ok(number)
    }

    // A number between brackets, if one opens here.
    fn bracketed(&mut self, before: u8, after: u8) -> Result<Option<u64>, Problem>
        ensures value { parsed result self.new ≡ bracketed_at before after self.old }
        ensures onward { length self.new ≤ length self.old }
    {
        if self.take(before) {
            Ok(Some(self.enclosed(after)?))
        } else {
            Ok(None)
        }
    }

    // A fetch, or `-` for none, and the closing parenthesis.
    fn last_limit(&mut self) -> Result<Option<u64>, Problem>
        ensures value { parsed result self.new ≡ last_limit_at self.old }
        ensures onward { length self.new ≤ length self.old }
    {
        if self.take(b'-') {
            self.expect(b')', Problem::ExpectedClosing)?;
            Ok(None)
        } else {
            Ok(Some(self.enclosed(b')')?))
        }
    }

    // What stands behind a letter and its parameter: `(skip,fetch)` behind G, `(fetch)` behind L, else `[fetch]` or nothing.
    fn limits(&mut self, kind: Kind) -> Result<Limits, Problem>
        ensures value { parsed result self.new ≡ limits_at kind self.old }
        ensures onward { length self.new ≤ length self.old }
    {
        match kind {
            Kind::GlobalLimit => {
                self.expect(b'(', Problem::ExpectedLimits)?;
                let skip = self.amount()?;
                self.expect(b',', Problem::ExpectedComma)?;
                let fetch = self.last_limit()?;
                Ok(Limits {
                    skip: Some(skip),
                    fetch,
                })
            }
            Kind::LocalLimit => {
                self.expect(b'(', Problem::ExpectedLimits)?;
                let fetch = self.last_limit()?;
                Ok(Limits { skip: None, fetch })
            }
            _ => {
                let fetch = self.bracketed(b'[', b']')?;
                Ok(Limits { skip: None, fetch })
            }
        }
    }

    // The skip of a node that is no G, 0 if none is written.
    fn own_skip(&mut self) -> Result<u64, Problem>
        ensures value { parsed result self.new ≡ own_skip_at self.old }
        ensures onward { length self.new ≤ length self.old }
    {
        if self.take(b'+') {
            self.amount()
        } else {
            Ok(0)
        }
    }

    // Hint, skip and mark, behind the rest of a node. A hint and a skip above 0 cannot stand on one node.
    fn suffixes(&mut self, kind: u8, parameter: u32, limits: Limits) -> Result<Cell, Problem>
        ensures value { parsed result self.new ≡ suffixes_at kind parameter limits self.old }
        ensures onward { length self.new ≤ length self.old }
    {
        // The later of the two, which the problem is about.
        let mut later = self.rest;
        let hint = self.bracketed(b'{', b'}')?;
        let skip = match limits.skip {
            Some(skip) => skip,
            None => {
                later = self.rest;
                self.own_skip()?
            }
        };
        if hint.is_some() && skip > 0 {
            self.rest = later;
            return Err(Problem::HintBesideSkip);
        }
        let mark = self.take(b'!');
        Ok(Cell {
            kind,
            children: 0,
            parameter,
            mark,
            fetch: limits.fetch,
            hint,
            skip,
        })
    }

    // A node by its kind in digits: `20:4`.
    fn numbered(&mut self) -> Result<Cell, Problem>
        ensures value { parsed result self.new ≡ numbered_at self.old }
        ensures onward { length self.new ≤ length self.old }
    {
        let kind = self.number(u64::from(u8::MAX), Problem::KindTooLarge)? as u8;
        self.expect(b':', Problem::ExpectedColon)?;
        let parameter = self.parameter()?;
        let fetch = self.bracketed(b'[', b']')?;
        self.suffixes(kind, parameter, Limits { skip: None, fetch })
    }

    // The digits behind a letter, if there are any.
    fn own_parameter(&mut self) -> Result<u32, Problem>
        ensures value { parsed result self.new ≡ own_parameter_at self.old }
        ensures onward { length self.new ≤ length self.old }
    {
        match self.peek() {
            Some(b'0'..=b'9') => self.parameter(),
            _ => Ok(0),
        }
    }

    // What stands behind a node's letter.
    fn lettered(&mut self, kind: u8) -> Result<Cell, Problem>
        ensures value { parsed result self.new ≡ lettered_at kind self.old }
        ensures onward { length self.new ≤ length self.old }
    {
        let parameter = self.own_parameter()?;
        let limits = self.limits(Kind::from(kind))?;
        self.suffixes(kind, parameter, limits)
    }

    /// A node without its children.
    pub(crate) fn node(&mut self) -> Result<Cell, Problem>
        ensures value { parsed result self.new ≡ node_at self.old }
        ensures onward { length self.new ≤ length self.old }
    {
        let Some((byte, rest)) = self.rest.split_first() else {
            return Err(Problem::ExpectedNode);
        };
        if byte.is_ascii_digit() {
            return self.numbered();
        }
        let Some(kind) = kind_of(*byte) else {
            return Err(if byte.is_ascii_alphabetic() {
                Problem::UnknownKind
            } else {
                Problem::ExpectedNode
            });
        };
        self.rest = rest;
        self.lettered(kind)
    }
}
