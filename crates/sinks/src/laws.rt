// The laws of sink, each asked for by a function that does nothing.
ghost use Rattle.sinks.specs.Laws.{SinkKeepsRows, SinkKeepsAccepted, SinkAtMostDoubles, SecondVisitChangesNothing, SecondVisitSumsNoMore};

/// Sink keeps the rows of an accepted plan.
fn sink_keeps_rows()
    ensures { SinkKeepsRows }
{}

/// Sink keeps a plan accepted, if no sum is too large.
fn sink_keeps_accepted()
    ensures { SinkKeepsAccepted }
{}

/// Sink leaves at most twice as many cells.
fn sink_at_most_doubles()
    ensures { SinkAtMostDoubles }
{}

/// The second visit of a node under its new limit changes nothing.
fn second_visit_changes_nothing()
    ensures { SecondVisitChangesNothing }
{}

/// The second visit forms no larger sum.
fn second_visit_sums_no_more()
    ensures { SecondVisitSumsNoMore }
{}
