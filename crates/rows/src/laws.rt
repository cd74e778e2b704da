// The laws of the rules, each asked for by a function that does nothing.
ghost use Rattle.rows.specs.Laws.{OneRoot, GrowKeepsRows, HintKeepsRows, GrowKeepsAccepted, HintKeepsAccepted};

/// An accepted plan has one root.
fn one_root()
    ensures { OneRoot }
{}

/// Grow keeps the rows of an accepted plan whose windows it does not refuse.
fn grow_keeps_rows()
    ensures { GrowKeepsRows }
{}

/// Hint keeps the rows of an accepted plan.
fn hint_keeps_rows()
    ensures { HintKeepsRows }
{}

/// Grow keeps a plan accepted, if no sum is too large.
fn grow_keeps_accepted()
    ensures { GrowKeepsAccepted }
{}

/// Hint keeps a plan accepted, if no sum is too large.
fn hint_keeps_accepted()
    ensures { HintKeepsAccepted }
{}
