// Unpack, call, pack. The memory that a call is lent is local, and as large as the plan needs: small plans have small tables.
ghost use Rattle.std.specs.Prelude.{◌≡◌, ◌*◌, ◌/◌, ◌≤◌, length};
ghost use Rattle.plan.specs.Tables.{counted, laid};
ghost use Rattle.records.specs.Record.{record_size};
ghost use Rattle.packed_calls.specs.Converts.{unpacked_answer, packed_answer, packed_up};
ghost use Rattle.packed_calls.specs.Laws.{PackedCalled};

use crate::codes::code;
use checks::{Fact, check_count, check_room};
use limits::{Memory, Pending, Rule, call};
use operators::OperatorSet;
use plan::{Cell, Fault, Refusal};
use records::{RECORD, pack, unpack};

/// How many bytes of output each node asks for: two records.
const NODE_ROOM: usize = 2 * RECORD;

/// Calls a rule on a packed plan in memory for so many nodes and twice as many cells. Refused, the output stays as it was.
fn convert_in<O: OperatorSet, const NODES: usize, const CELLS: usize>(
    rule: Rule,
    set: &O,
    plan: &[u8],
    out: &mut [u8],
) -> Result<usize, Fault>
    requires few { NODES ≤ 4096 }
    requires twice { CELLS ≡ 2 * NODES }
    requires short { length plan.now / record_size ≤ NODES }
    ensures answer { result ≡ counted (unpacked_answer (O.OperatorSet.answers set.now) rule plan.now (length out.old)) }
    ensures bytes { out.new ≡ laid 0 (packed_up (unpacked_answer (O.OperatorSet.answers set.now) rule plan.now (length out.old))) out.old }
{
    let table: &mut [Cell] = &mut [Cell::BLANK; CELLS];
    let mut memory = Memory {
        work: &mut [Cell::BLANK; CELLS],
        requirements: &mut [Pending::BLANK; NODES],
        facts: &mut [Fact::BLANK; NODES],
    };
    let count = unpack(plan, table)?;
    check_count(count, count)?;
    check_room(out.len(), NODE_ROOM * count)?;
    let granted = call(rule, set, table, count, &mut memory)?;
    pack(&table[..granted], out).map(|_| granted)
}

/// The same on plans of `MOST` nodes at most. The constant decides where it can, so that calls that take no large plan have no memory
/// for one on their stack.
fn convert_some<O: OperatorSet, const MOST: usize>(
    rule: Rule,
    set: &O,
    plan: &[u8],
    out: &mut [u8],
) -> Result<usize, Fault>
    requires { MOST ≤ 4096 }
    ensures answer { result ≡ counted (packed_answer (O.OperatorSet.answers set.now) MOST rule plan.now (length out.old)) }
    ensures bytes { out.new ≡ laid 0 (packed_up (packed_answer (O.OperatorSet.answers set.now) MOST rule plan.now (length out.old))) out.old }
{
    if plan.len() > RECORD * MOST {
        return Err(Refusal::Count.at(0));
    }
    match plan.len() / RECORD {
        0..=16 => convert_in::<O, 16, 32>(rule, set, plan, out),
        17..=64 => convert_in::<O, 64, 128>(rule, set, plan, out),
        nodes if MOST <= 512 || nodes <= 512 => convert_in::<O, 512, 1024>(rule, set, plan, out),
        _ => convert_in::<O, 4096, 8192>(rule, set, plan, out),
    }
}

/// The same, with zeros behind the new plan or in the place of one, and with one number as the answer.
fn convert_most<O: OperatorSet, const MOST: usize>(
    rule: Rule,
    set: &O,
    plan: &[u8],
    out: &mut [u8],
) -> i32
    requires { MOST ≤ 4096 }
    ensures { PackedCalled (O.OperatorSet.answers set.now) MOST rule plan.now (length out.old) out.new result }
{
    out.fill(0);
    code(convert_some::<O, MOST>(rule, set, plan, out))
}

/// Calls a rule on a packed plan of 512 nodes at most. Granted, the output is the packed new plan with zeros behind it, and the
/// answer its node count; refused, the output is zeros, and the answer -(refusal number * 8,192 + place).
///
/// Whatever the operators mean and store, as long as they keep the rules: the new plan's root has in each partition the same rows in
/// the same order, and so it is after any list of such calls, each on the bytes that the last granted one left.
pub fn convert<O: OperatorSet>(rule: Rule, set: &O, plan: &[u8], out: &mut [u8]) -> i32
    ensures { PackedCalled (O.OperatorSet.answers set.now) 512 rule plan.now (length out.old) out.new result }
{
    convert_most::<O, 512>(rule, set, plan, out)
}

/// The same on plans of 4,096 nodes at most. It needs about a megabyte of stack.
pub fn convert_large<O: OperatorSet>(rule: Rule, set: &O, plan: &[u8], out: &mut [u8]) -> i32
    ensures { PackedCalled (O.OperatorSet.answers set.now) 4096 rule plan.now (length out.old) out.new result }
{
    convert_most::<O, 4096>(rule, set, plan, out)
}
