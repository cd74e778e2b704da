// The vocabulary of plans: cells and their kinds, refusals and their places, stacks in lent memory.
#![tactic(auto)]

mod cells;
mod kinds;
mod refusals;
mod stacks;

pub use cells::{Cell, MAX_CHILDREN, MAX_NODES, MAX_NUMBER, MAX_PARAMETER, MAX_PARTITIONS};
pub use kinds::Kind;
pub use refusals::{Fault, Refusal};
pub use stacks::{Stack, wipe};
