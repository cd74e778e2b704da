// Sink: limits go down a plan as far as they can. What is pending on the way, what a visit of a node gives, and the laws: the rows stay as
// they are, and an accepted plan stays accepted.
#![tactic(auto)]

mod laws;
mod requirements;

pub use requirements::{GlobalRequirements, Visited};
