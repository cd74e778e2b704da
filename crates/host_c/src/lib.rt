// The C interface as C sees it: a symbol for each call of `host`, under the same clause. A slice crosses as a pointer and a length.
#![tactic(auto)]

ghost use Rattle.std.specs.Prelude.{length};
ghost use Rattle.operators.specs.Catalogue.{catalogue};
ghost use Rattle.limits.specs.declared.rules.Rule.TheVariants.{Sink, Grow, Hint};
ghost use Rattle.packed_calls.specs.Laws.{PackedCalled};

/// Limits go down a packed plan as far as they can; `host::javundiru_sink` says what it answers and writes.
#[unsafe(no_mangle)]
pub extern "C" fn javundiru_sink(plan: &[u8], out: &mut [u8]) -> i32
    ensures { PackedCalled catalogue 512 Sink plan.now (length out.old) out.new result }
{
    host::javundiru_sink(plan, out)
}

/// A limit of a packed plan goes past windows, grown by what they look ahead; `host::javundiru_grow` says what it answers and writes.
#[unsafe(no_mangle)]
pub extern "C" fn javundiru_grow(plan: &[u8], out: &mut [u8]) -> i32
    ensures { PackedCalled catalogue 512 Grow plan.now (length out.old) out.new result }
{
    host::javundiru_grow(plan, out)
}

/// A limit of a packed plan becomes a hint on the distinct aggregates right below it; `host::javundiru_hint` says what it answers and
/// writes.
#[unsafe(no_mangle)]
pub extern "C" fn javundiru_hint(plan: &[u8], out: &mut [u8]) -> i32
    ensures { PackedCalled catalogue 512 Hint plan.now (length out.old) out.new result }
{
    host::javundiru_hint(plan, out)
}
