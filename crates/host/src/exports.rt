// The calls that C sees, on packed plans of up to 512 nodes. A slice crosses as a pointer and a length.
ghost use Rattle.std.specs.Prelude.{length};
ghost use Rattle.operators.specs.Catalogue.{catalogue};
ghost use Rattle.limits.specs.declared.rules.Rule.TheVariants.{Sink, Grow, Hint};
ghost use Rattle.packed_calls.specs.Laws.{PackedCalled};

use limits::Rule;
use operators::CatalogueSet;
use packed_calls::convert;

/// Limits go down a packed plan as far as they can.
///
/// Granted, the output is the packed new plan with zeros behind it, and the answer its node count; refused, the output is zeros, and
/// the answer is -(refusal number * 8,192 + place). Whatever the catalogue's operators mean and store, as long as they keep the
/// rules, each partition of the new plan's root has the same rows in the same order.
#[unsafe(no_mangle)]
pub extern "C" fn javundiru_sink(plan: &[u8], out: &mut [u8]) -> i32
    ensures { PackedCalled catalogue 512 Sink plan.now (length out.old) out.new result }
{
    convert(Rule::Sink, &CatalogueSet, plan, out)
}

/// A limit of a packed plan goes past windows, grown by what they look ahead.
///
/// Granted, the output is the packed new plan with zeros behind it, and the answer its node count; refused, the output is zeros, and
/// the answer is -(refusal number * 8,192 + place). Whatever the catalogue's operators mean and store, as long as they keep the
/// rules, each partition of the new plan's root has the same rows in the same order.
#[unsafe(no_mangle)]
pub extern "C" fn javundiru_grow(plan: &[u8], out: &mut [u8]) -> i32
    ensures { PackedCalled catalogue 512 Grow plan.now (length out.old) out.new result }
{
    convert(Rule::Grow, &CatalogueSet, plan, out)
}

/// A limit of a packed plan becomes a hint on the distinct aggregates right below it.
///
/// Granted, the output is the packed new plan with zeros behind it, and the answer its node count; refused, the output is zeros, and
/// the answer is -(refusal number * 8,192 + place). Whatever the catalogue's operators mean and store, as long as they keep the
/// rules, each partition of the new plan's root has the same rows in the same order.
#[unsafe(no_mangle)]
pub extern "C" fn javundiru_hint(plan: &[u8], out: &mut [u8]) -> i32
    ensures { PackedCalled catalogue 512 Hint plan.now (length out.old) out.new result }
{
    convert(Rule::Hint, &CatalogueSet, plan, out)
}
