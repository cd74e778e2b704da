// Plans read from text.
#![tactic(auto)]

mod cursor;
mod nodes;
mod plans;

pub use plans::read_plan;
