// An answer as one number.
ghost use Rattle.std.specs.Prelude.{◌≡◌};
ghost use Rattle.packed_calls.specs.Codes.{code_of, HasCode};

use plan::Fault;

/// What a refusal's number counts, so that a place stands beside it.
const PLACES: i32 = 8192;

/// An answer as one number, which is what C gets: the node count, or a refusal below 0.
pub(super) fn code(answer: Result<usize, Fault>) -> i32
    requires { HasCode answer }
    ensures { result ≡ code_of answer }
{
    match answer {
        Ok(count) => count as i32,
        Err(fault) => -(i32::from(fault.refusal.number()) * PLACES + fault.place as i32),
    }
}
