// The C interface: each rule as a call on packed plans, under the catalogue's operators.
#![tactic(auto)]

mod chains;
mod exports;

pub use chains::shows_chains;
pub use exports::{javundiru_grow, javundiru_hint, javundiru_sink};
