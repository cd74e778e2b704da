// What the rules make of a plan, and the laws that they keep its rows and keep it accepted: definitions and proofs, no code.
#![tactic(auto)]

mod growing;
mod hinting;
mod laws;

pub use growing::{Phase, TraverseState, Turn};
pub use hinting::Handed;
