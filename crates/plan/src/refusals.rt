// Why a call refuses a plan, and where.
ghost use Rattle.std.specs.Prelude.{◌≡◌, Some};
ghost use Rattle.plan.specs.Refusals.{number_of, fault_at, refusal_text, fault_text};

use std::fmt;

#[derive(Clone, Copy, PartialEq, Eq, Debug)]
pub enum Refusal {
    /// Packed bytes that are no records.
    Packed = 1,
    /// No nodes, too many, or more than the table has.
    Count = 2,
    /// A table or a stack is too small.
    Room = 3,
    /// The cells are not one tree.
    Tree = 4,
    /// Kind, parameter and child count do not fit.
    Fit = 5,
    /// A number is too large, or stands where it has no place.
    Fields = 6,
    /// A partition count is out of range.
    Partitions = 7,
    /// A hint that the node above does not bear out.
    Hints = 8,
    /// Windows that grow cannot add up.
    Windows = 9,
    /// A sum that is too large.
    Sum = 10,
    /// A declaration that no set may hold.
    Declaration = 11,
}

impl Refusal {
    /// The number under which hosts and documents know it.
    pub fn number(self) -> u8
        ensures { result ≡ number_of self }
    {
        self as u8
    }

    /// The refusal at a place.
    pub fn at(self, place: usize) -> Fault
        ensures { result ≡ fault_at self place }
    {
        Fault {
            refusal: self,
            place,
        }
    }
}

/// What it means, in short.
impl fmt::Display for Refusal {
    ghost output = { λ refusal. Some (refusal_text refusal) };

    fn fmt<W: fmt::Write>(&self, f: &mut fmt::Formatter<W>) -> fmt::Result {
        f.write_str(match self {
            Refusal::Packed => "these bytes are no records",
            Refusal::Count => "a plan has 1 to 4096 nodes",
            Refusal::Room => "there is too little room",
            Refusal::Tree => "the cells are not one tree",
            Refusal::Fit => "kind, parameter and child count do not fit",
            Refusal::Fields => "a number is too large, or stands where it has no place",
            Refusal::Partitions => "a partition count is out of range",
            Refusal::Hints => "the node above does not bear the hint out",
            Refusal::Windows => "these windows cannot be added up",
            Refusal::Sum => "a sum is too large",
            Refusal::Declaration => "this declaration cannot be held",
        })
    }
}

/// A refusal and the place of the first cell that gave rise to it, or 0 where none did.
#[derive(Clone, Copy, PartialEq, Eq, Debug)]
pub struct Fault {
    pub refusal: Refusal,
    pub place: usize,
}

impl fmt::Display for Fault {
    ghost output = { λ fault. Some (fault_text fault) };

    fn fmt<W: fmt::Write>(&self, f: &mut fmt::Formatter<W>) -> fmt::Result {
        let number = self.refusal.number();
        write!(f, "refused with {number} at {}", self.place)
    }
}
