// The one frame around the rules: count and room, the checks of the plan, the rule itself, the copy back, and blank memory after.
ghost use Rattle.std.specs.Prelude.{◌≡◌, ◌*◌, ◌<◌, ◌≤◌, length, IfOk};
ghost use Rattle.plan.specs.Cells.{blank};
ghost use Rattle.plan.specs.Numbers.{max_nodes};
ghost use Rattle.plan.specs.Refusals.{then};
ghost use Rattle.plan.specs.Tables.{laid};
ghost use Rattle.checks.specs.Accepts.{plan_answer};
ghost use Rattle.limits.specs.Calls.{rule_answer, call_answer, front_of};
ghost use Rattle.limits.specs.Memory.{lent_by, SameLoan, Wiped};
ghost use Rattle.limits.specs.Laws.{Called};
ghost use Rattle.limits.specs.declared.rules.Rule.TheVariants.{Sink, Grow, Hint};

use super::{Memory, Pending, Rule};
use crate::limit_pushdown::sink_cells;
use crate::limit_pushdown_past_window::grow_cells;
use crate::limited_distinct_aggregation::hint_cells;
use checks::{Fact, accept, check_count};
use operators::OperatorSet;
use plan::{Cell, Fault, Stack};

/// Checks a plan, and writes what the rule leaves of it over the front of the work table.
fn rewrite<O: OperatorSet>(
    rule: Rule,
    set: &O,
    cells: &[Cell],
    work: &mut [Cell],
    requirements: &mut [Pending],
    facts: &mut [Fact],
) -> Result<usize, Fault>
    requires some { 0 < length cells.now }
    requires few { length cells.now ≤ max_nodes }
    requires work { 2 * length cells.now ≤ length work.old }
    requires requirements { length cells.now ≤ length requirements.old }
    requires facts { length cells.now ≤ length facts.old }
    ensures answer { front_of work.new result ≡ then (plan_answer (O.OperatorSet.answers set.now) cells.now) (λ _. rule_answer (O.OperatorSet.answers set.now) rule cells.now) }
    ensures twice { IfOk result (λ n. n ≤ 2 * length cells.now) }
{
    let mut known = Stack::new(facts);
    accept(set, cells, cells.len(), &mut known)?;
    match rule {
        Rule::Sink => sink_cells(set, cells, work, requirements, &known),
        Rule::Grow => grow_cells(set, cells, work),
        Rule::Hint => hint_cells(set, cells, work),
    }
}

/// The checks and the rule, up to the work table; what it leaves in the memory is the caller's to blank.
fn compute<O: OperatorSet>(
    rule: Rule,
    set: &O,
    plan: &[Cell],
    count: usize,
    memory: &mut Memory<'_>,
) -> Result<usize, Fault>
    ensures loan { SameLoan memory.old memory.new }
    ensures answer { front_of memory.new.work.now result ≡ call_answer (O.OperatorSet.answers set.now) rule plan.now count (lent_by memory.old) }
    ensures within { IfOk result (λ n. (n ≤ length memory.old.work.now) × (n ≤ length plan.now)) }
{
    check_count(plan.len(), count)?;
    memory.check_rooms(plan.len(), count)?;
    rewrite(
        rule,
        set,
        &plan[0..count],
        memory.work,
        memory.requirements,
        memory.facts,
    )
}

/// Granted, the new plan goes over the old one, with blank cells behind it; refused, the plan stays.
fn write_back(plan: &mut [Cell], work: &[Cell], answer: Result<usize, Fault>)
    requires { IfOk answer (λ n. (n ≤ length work.now) × (n ≤ length plan.old)) }
    ensures { plan.new ≡ laid blank (front_of work.now answer) plan.old }
{
    if let Ok(count) = answer {
        plan[0..count].copy_from_slice(&work[0..count]);
        plan[count..].fill(Cell::BLANK);
    }
}

/// One call of a rule.
///
/// Granted, the plan table holds what the rule's steps give and blank cells behind it, and the answer is the new node count; refused, it
/// is untouched. The lent memory is blank afterwards. Whatever the operators mean and store, as long as they keep the rules, each
/// partition of the root has the same rows in the same order, and an accepted plan stays accepted, with as many partitions.
pub fn call<O: OperatorSet>(
    rule: Rule,
    set: &O,
    plan: &mut [Cell],
    count: usize,
    memory: &mut Memory<'_>,
) -> Result<usize, Fault>
    ensures called { Called (O.OperatorSet.answers set.now) rule (lent_by memory.old) count plan.old plan.new result }
    ensures wiped { Wiped memory.old memory.new }
{
    let answer = compute(rule, set, plan, count, memory);
    write_back(plan, memory.work, answer);
    memory.clear();
    answer
}

/// Limits go down a plan as far as they can: a `call` of `Rule::Sink`. A granted one may give more nodes than a later call takes.
pub fn sink<O: OperatorSet>(
    set: &O,
    plan: &mut [Cell],
    count: usize,
    memory: &mut Memory<'_>,
) -> Result<usize, Fault>
    ensures called { Called (O.OperatorSet.answers set.now) Sink (lent_by memory.old) count plan.old plan.new result }
    ensures wiped { Wiped memory.old memory.new }
{
    call(Rule::Sink, set, plan, count, memory)
}

/// A limit goes past windows, grown by what they look ahead, to a sort or merge below them: a `call` of `Rule::Grow`.
pub fn grow<O: OperatorSet>(
    set: &O,
    plan: &mut [Cell],
    count: usize,
    memory: &mut Memory<'_>,
) -> Result<usize, Fault>
    ensures called { Called (O.OperatorSet.answers set.now) Grow (lent_by memory.old) count plan.old plan.new result }
    ensures wiped { Wiped memory.old memory.new }
{
    call(Rule::Grow, set, plan, count, memory)
}

/// A limit becomes a hint on the distinct aggregates right below it: a `call` of `Rule::Hint`.
pub fn hint<O: OperatorSet>(
    set: &O,
    plan: &mut [Cell],
    count: usize,
    memory: &mut Memory<'_>,
) -> Result<usize, Fault>
    ensures called { Called (O.OperatorSet.answers set.now) Hint (lent_by memory.old) count plan.old plan.new result }
    ensures wiped { Wiped memory.old memory.new }
{
    call(Rule::Hint, set, plan, count, memory)
}
