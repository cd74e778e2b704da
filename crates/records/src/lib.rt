// Packed plans: for each cell a record of 14 bytes, one after another.
#![tactic(auto)]

mod layout;
mod plans;

pub use layout::RECORD;
pub use plans::{pack, unpack};
