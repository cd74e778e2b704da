// Sums that a rule forms at a node.
ghost use Rattle.std.specs.Prelude.{◌≡◌, ◌+◌, if◌then◌else◌, Ok, nat_lt};
ghost use Rattle.plan.specs.Numbers.{max_number};
ghost use Rattle.plan.specs.Refusals.{refused_at};
ghost use Rattle.plan.specs.declared.refusals.Refusal.TheVariants.{Sum};

use plan::{Fault, MAX_NUMBER, Refusal};

/// The sum of two numbers, refused at the node visited where it is too large.
pub(super) fn sum_at(place: usize, a: u64, b: u64) -> Result<u64, Fault>
    ensures { result ≡ (if nat_lt max_number (a + b) then refused_at Sum place else Ok (a + b)) }
{
    a.checked_add(b)
        .filter(|sum| *sum <= MAX_NUMBER)
        .ok_or(Refusal::Sum.at(place))
}
