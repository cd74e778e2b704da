// The memory that a call is lent beside the plan.
ghost use Rattle.std.specs.Prelude.{◌≡◌, ◌≤◌};
ghost use Rattle.limits.specs.Calls.{rooms_answer};
ghost use Rattle.limits.specs.Memory.{lent_by, Wiped};

use super::Pending;
use checks::{Fact, check_room};
use plan::{Cell, Fault};

/// A work table and the entries of two stacks. What it holds before a call does not matter; afterwards it is blank.
#[derive(Drop)]
pub struct Memory<'a> {
    pub work: &'a mut [Cell],
    pub requirements: &'a mut [Pending],
    pub facts: &'a mut [Fact],
}

impl Memory<'_> {
    /// Makes each part blank.
    pub(super) fn clear(&mut self)
        ensures { Wiped self.old self.new }
    {
        self.work.fill(Cell::BLANK);
        self.requirements.fill(Pending::BLANK);
        self.facts.fill(Fact::BLANK);
    }

    /// Twice the count in plan and work table, the count in each stack.
    pub(super) fn check_rooms(&self, table: usize, count: usize) -> Result<(), Fault>
        requires { count ≤ 4096 }
        ensures { result ≡ rooms_answer table count (lent_by self.now) }
    {
        check_room(table, 2 * count)?;
        check_room(self.work.len(), 2 * count)?;
        check_room(self.requirements.len(), count)?;
        check_room(self.facts.len(), count)
    }
}
