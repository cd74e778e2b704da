// A run: calls of rules one after another, on one plan.
ghost use Rattle.std.specs.Prelude.{◌≡◌, take};
ghost use Rattle.limits.specs.Memory.{lent_by, Wiped};
ghost use Rattle.limits.specs.Laws.{count_after, PagesKept, ran, RunsKeepPages, asked, answered_calls};

use super::{Memory, RuleCall};
use crate::calls::call;
use operators::OperatorSet;
use plan::{Cell, Fault};

/// Makes the calls of a list one after another, each on the plan table and the node count that the one before it passed on, and gives
/// each its answer. It answers the last node count. The lent memory is blank afterwards.
///
/// Whatever the operators mean and store, as long as they keep the rules: after this run, and after any run of calls in any order, each
/// with memory of any length, granted or refused, each partition of the root has the same rows in the same order, and an accepted plan
/// is accepted still, with as many partitions.
pub fn run<O: OperatorSet>(
    set: &O,
    calls: &mut [RuleCall],
    plan: &mut [Cell],
    count: usize,
    memory: &mut Memory<'_>,
) -> usize
    ensures answers { calls.new ≡ answered_calls calls.old (ran (O.OperatorSet.answers set.now) (asked (lent_by memory.old) calls.old) plan.old count).answers }
    ensures plan { plan.new ≡ (ran (O.OperatorSet.answers set.now) (asked (lent_by memory.old) calls.old) plan.old count).table }
    ensures count { result ≡ (ran (O.OperatorSet.answers set.now) (asked (lent_by memory.old) calls.old) plan.old count).count }
    ensures wiped { Wiped memory.old memory.new }
    ensures pages { PagesKept (O.OperatorSet.answers set.now) (take count plan.old) (take result plan.new) }
    ensures runs { RunsKeepPages (O.OperatorSet.answers set.now) }
{
    memory.clear();
    let mut nodes = count;
    for made in calls.iter_mut() {
        let answer = call(made.rule, set, plan, nodes, memory);
        made.answer = Some(answer);
        nodes = answer.unwrap_or(nodes);
    }
    nodes
}
