// The set whose answers a table gives. The struct stands alone in its file, since a struct with an invariant imports each `ghost use` of it.
ghost use Rattle.std.specs.Prelude.{◌≡◌, true};
ghost use Rattle.driver.specs.Tables.{sized};

use crate::row_types::{GroupRow, OperatorRow};
use operators::WindowExpr;

/// Operators as a table has them: a row for a kind, a window for each `width` expressions, a row for an aggregate's parameter.
#[derive(Clone, Copy, PartialEq, Eq, Debug)]
pub struct TableSet<'a> {
    pub operators: &'a [OperatorRow],
    pub exprs: &'a [WindowExpr],
    pub width: usize,
    pub groups: &'a [GroupRow],
    ghost small: { sized exprs.now width ≡ true },
}
