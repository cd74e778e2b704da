// The set of declared operators. The struct stands alone in its file, since a struct with an invariant imports each `ghost use` of it.
ghost use Rattle.std.specs.Prelude.{◌≡◌, true, is_ok};
ghost use Rattle.operators.specs.Declarations.{declared_answer};

use super::Declaration;

/// Operators as declared: it holds only declarations that it has not refused.
#[derive(Clone, Copy, PartialEq, Eq, Debug)]
pub struct DeclaredSet<'a> {
    pub declarations: &'a [Declaration],
    ghost accepted: { is_ok (declared_answer declarations.now) ≡ true },
}
