// The requirement stack: an entry is a requirement and how many subtrees still share it, so that the stack is never deeper than
// the path from the root to a node.
ghost use Rattle.std.specs.Prelude.{◌≡◌, ◌+◌, ◌<◌, ◌≤◌, ◌∷◌, ◌++◌, length, replicate};
ghost use Rattle.plan.specs.Stacks.{content, room};
ghost use Rattle.limits.specs.Pending.{spread, InRange, Live};

use plan::Stack;
use sinks::GlobalRequirements;

/// An entry of the requirement stack.
#[derive(Clone, Copy, PartialEq, Eq, Debug)]
pub struct Pending {
    pub requirement: GlobalRequirements,
    /// How many subtrees still to come share it.
    pub subtrees: u8,
}

impl Pending {
    pub const BLANK: Pending = Pending {
        requirement: GlobalRequirements::FIRST,
        subtrees: 0,
    };
}

/// Each of so many subtrees gets a copy.
pub(super) fn hand_down(pending: &mut Stack<Pending>, requirement: GlobalRequirements, children: u8)
    requires live { Live (content pending.old) }
    requires small { InRange requirement }
    requires room { 0 < children → 0 < room pending.old }
    ensures len { length pending.new.items.now ≡ length pending.old.items.now }
    ensures given { spread (content pending.new) ≡ replicate children requirement ++ spread (content pending.old) }
    ensures live { Live (content pending.new) }
{
    if children > 0 {
        let _ = pending.push(Pending {
            requirement,
            subtrees: children,
        });
    }
}

/// The requirement of the next subtree.
pub(super) fn next_requirement(pending: &mut Stack<Pending>) -> GlobalRequirements
    requires live { Live (content pending.old) }
    requires some { 0 < length (content pending.old) }
    ensures len { length pending.new.items.now ≡ length pending.old.items.now }
    ensures taken { spread (content pending.old) ≡ result ∷ spread (content pending.new) }
    ensures live { Live (content pending.new) }
    ensures small { InRange result }
{
    let top = pending.pop().unwrap_or(Pending::BLANK);
    hand_down(pending, top.requirement, top.subtrees.saturating_sub(1));
    top.requirement
}
