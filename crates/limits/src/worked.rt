// Worked plans.
ghost use Rattle.limits.specs.Worked.{WorkedPlans};

/// The rules leave of a table of worked plans what that table says.
pub fn worked_plans()
    ensures { WorkedPlans }
{}
