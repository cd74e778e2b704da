// The checks that a plan passes before any rule, each over the whole plan and in a fixed order.
#![tactic(auto)]

mod accepting;
mod facts;
mod shapes;
mod single;
mod windows;

pub use accepting::{accept, check, check_count, check_room};
pub use facts::{Fact, KnownRows};
pub use windows::check_windows;
