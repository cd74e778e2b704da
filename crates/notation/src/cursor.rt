// What is left of a text, and the words at its beginning. A problem leaves the cursor at the character that it is about.
ghost use Rattle.std.specs.Prelude.{◌≡◌, ◌+◌, ◌-◌, ◌≤◌, ◌↔◌, IsTrue, [], length, is_some, IfOk, if◌then◌else◌, slice_get};
ghost use Rattle.notation.specs.Cursors.{begins, past_blanks, digit_at, tail, parsed, number_parsed, due_at};

use std::marker::Model;
use text::{Problem, is_blank};

/// A clause sees the bytes that are left.
#[derive(Drop)]
pub(crate) struct Cursor<'a> {
    pub(crate) rest: &'a [u8],
}

impl<'a> Model for Cursor<'a> {
    ghost use Rattle.std.specs.Prelude.{ℕ, List};

    ghost Value = { List ℕ };

    ghost view = { λ c. c.rest.now };
}

impl<'a> Cursor<'a> {
    pub(crate) fn new(text: &'a [u8]) -> Cursor<'a>
        ensures { result ≡ text.now }
    {
        Cursor { rest: text }
    }

    /// The place in the text that it reads, counted from 1.
    pub(crate) fn column(&self, text: &str) -> usize
        requires { length self.now ≤ length text.now }
        ensures { result ≡ length text.now - length self.now + 1 }
    {
        text.len() - self.rest.len() + 1
    }

    pub(crate) fn is_empty(&self) -> bool
        ensures { IsTrue result ↔ (self.now ≡ []) }
    {
        self.rest.is_empty()
    }

    /// The byte at the cursor; none at the end.
    pub(crate) fn peek(&self) -> Option<u8>
        ensures { result ≡ slice_get self.now 0 }
    {
        self.rest.first().copied()
    }

    /// Steps over a byte, if it is this one.
    pub(crate) fn take(&mut self, byte: u8) -> bool
        ensures value { result ≡ begins byte self.old }
        ensures left { self.new ≡ (if result then tail self.old else self.old) }
        ensures onward { length self.new ≤ length self.old }
    {
        match self.rest {
            [next, rest @ ..] if *next == byte => {
                self.rest = rest;
                true
            }
            _ => false,
        }
    }

    /// Steps over a byte that is due.
    pub(crate) fn expect(&mut self, byte: u8, problem: Problem) -> Result<(), Problem>
        ensures value { parsed result self.new ≡ due_at byte problem self.old }
        ensures onward { length self.new ≤ length self.old }
    {
        if self.take(byte) {
            Ok(())
        } else {
            Err(problem)
        }
    }

    /// Steps over blanks.
    pub(crate) fn skip_blanks(&mut self)
        ensures value { self.new ≡ past_blanks self.old }
        ensures onward { length self.new ≤ length self.old }
    {
        while let [byte, rest @ ..] = self.rest
            && is_blank(*byte)
        {
            self.rest = rest;
        }
    }

    // Steps over a digit, and gives its value.
    fn digit(&mut self) -> Option<u8>
        ensures value { result ≡ digit_at self.old }
        ensures left { self.new ≡ (if is_some result then tail self.old else self.old) }
        ensures onward { length self.new ≤ length self.old }
    {
        match self.rest {
            [byte @ b'0'..=b'9', rest @ ..] => {
                self.rest = rest;
                Some(*byte - b'0')
            }
            _ => None,
        }
    }

    /// A number in digits, at most so large; the problem else.
    pub(crate) fn number(&mut self, most: u64, problem: Problem) -> Result<u64, Problem>
        ensures most { IfOk result (λ n. n ≤ most) }
        ensures value { parsed result self.new ≡ number_parsed most problem self.old }
        ensures onward { length self.new ≤ length self.old }
    {
        let start = self.rest;
        let mut value = u64::from(self.digit().ok_or(Problem::ExpectedNumber)?);
        while let Some(digit) = self.digit() {
            value = value.saturating_mul(10).saturating_add(u64::from(digit));
        }
        if value > most {
            self.rest = start;
            return Err(problem);
        }
        Ok(value)
    }
}
