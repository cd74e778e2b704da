// Plans written as text, and how deep their cells stand.
#![tactic(auto)]

mod awaited;
mod levels;
mod writes;

pub use levels::depths;
pub use writes::write_plan;
