// What a caller knows of memory of its own.
ghost use Rattle.std.specs.Prelude.{◌≡◌, length, replicate};
ghost use Rattle.plan.specs.Cells.{blank};
ghost use Rattle.checks.specs.Facts.{blank_fact};
ghost use Rattle.limits.specs.Pending.{blank_pending};

use super::{Memory, Pending, sink};
use checks::Fact;
use operators::CatalogueSet;
use plan::{Cell, Fault, Kind};
use std::test::Fail;

/// Who makes a `Memory` of slices of their own knows that each is blank after a call.
fn sink_in(
    plan: &mut [Cell],
    count: usize,
    work: &mut [Cell],
    requirements: &mut [Pending],
    facts: &mut [Fact],
) -> Result<usize, Fault>
    ensures work { work.new ≡ replicate (length work.old) blank }
    ensures requirements { requirements.new ≡ replicate (length requirements.old) blank_pending }
    ensures facts { facts.new ≡ replicate (length facts.old) blank_fact }
{
    let mut memory = Memory {
        work,
        requirements,
        facts,
    };
    sink(&CatalogueSet, plan, count, &mut memory)
}

#[test]
fn dirty_memory_is_blank_after_a_call(rt: HostRuntime) -> Result<(), Fail> {
    let scan = Cell::new(Kind::Operator(16), 0, 1);
    let mut plan = [Cell::BLANK; 4];
    plan[0] = Cell {
        fetch: Some(5),
        ..Cell::new(Kind::GlobalLimit, 1, 0)
    };
    plan[1] = scan;
    let mut work = [scan; 4];
    let mut requirements = [Pending {
        subtrees: 9,
        ..Pending::BLANK
    }; 2];
    let mut facts = [Fact {
        size: 9,
        ..Fact::BLANK
    }; 2];
    let answer = sink_in(&mut plan, 2, &mut work, &mut requirements, &mut facts);
    assert_eq!(rt; answer, Ok(1));
    assert_eq!(rt; plan[0].fetch, Some(5));
    assert_eq!(rt; work, [Cell::BLANK; 4]);
    assert_eq!(rt; requirements, [Pending::BLANK; 2]);
    assert_eq!(rt; facts, [Fact::BLANK; 2]);
    Ok(())
}
