// Calls on cell tables, made over and over, so that one of them can be timed: from the difference of two numbers of calls.
ghost use Rattle.std.specs.Prelude.{◌≡◌, ◌*◌, ◌≤◌, length, take};
ghost use Rattle.plan.specs.Numbers.{max_nodes};
ghost use Rattle.plan.specs.Refusals.{then};
ghost use Rattle.records.specs.Plans.{unpacking};
ghost use Rattle.limits.specs.Calls.{lent_of};
ghost use Rattle.limits.specs.Memory.{lent_by};
ghost use Rattle.driver.specs.Reading.{rule_of};
ghost use Rattle.driver.specs.Repeating.{repeated, repeated_on, repeated_count};

use crate::reading::rule_of;
use checks::Fact;
use limits::{Memory, Pending, Rule, call};
use operators::CatalogueSet;
use plan::{Cell, Fault, MAX_NODES, Refusal};
use records::unpack;

/// Makes the same call so many times, each on the saved cells, which are copied into the table first.
fn repeat_call(
    times: usize,
    rule: Rule,
    saved: &[Cell],
    count: usize,
    table: &mut [Cell],
    memory: &mut Memory<'_>,
) -> Result<usize, Fault>
    requires { length table.old ≡ length saved.now }
    ensures { result ≡ repeated times rule saved.now count (lent_by memory.old) }
{
    let mut answer = Ok(count);
    for _ in 0..times {
        table.copy_from_slice(saved);
        answer = call(rule, &CatalogueSet, table, count, memory);
    }
    answer
}

/// The same on the front of saved cells, in tables and stacks of just the size that the call asks for.
fn repeat_front(times: usize, rule: Rule, saved: &[Cell], count: usize) -> Result<usize, Fault>
    requires few { count ≤ 4096 }
    requires saved { 2 * count ≤ length saved.now }
    ensures { result ≡ repeated times rule (take (2 * count) saved.now) count (lent_of (2 * count) count count) }
{
    let mut table = [Cell::BLANK; 8192];
    let mut work = [Cell::BLANK; 8192];
    let mut requirements = [Pending::BLANK; 4096];
    let mut facts = [Fact::BLANK; 4096];
    repeat_call(
        times,
        rule,
        &saved[..2 * count],
        count,
        &mut table[..2 * count],
        &mut Memory {
            work: &mut work[..2 * count],
            requirements: &mut requirements[..count],
            facts: &mut facts[..count],
        },
    )
}

/// The same on a packed plan of at most 4,096 nodes.
fn repeat_on(times: usize, rule: Rule, plan: &[u8]) -> Result<usize, Fault>
    ensures { result ≡ then (unpacking plan.now (2 * max_nodes)) (repeated_on times rule) }
{
    let mut saved = [Cell::BLANK; 8192];
    let count = unpack(plan, &mut saved)?;
    if count > MAX_NODES {
        return Err(Refusal::Count.at(0));
    }
    repeat_front(times, rule, &saved, count)
}

/// Makes the same call of a rule so many times under the catalogue's operators, and answers the node count that the last one left; 0
/// where it was refused, or where the bytes hold no plan of at most 4,096 nodes. 0 is sink, 1 grow, else hint.
#[unsafe(no_mangle)]
pub extern "C" fn driver_repeat(rule: u8, plan: &[u8], times: usize) -> usize
    ensures { result ≡ repeated_count times (rule_of rule) plan.now }
{
    repeat_on(times, rule_of(rule), plan).unwrap_or(0)
}
