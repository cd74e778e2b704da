// The rules that move limits through plans.
#![tactic(auto)]

mod calls;
mod limit_pushdown;
mod limit_pushdown_past_window;
mod limited_distinct_aggregation;
mod memory;
mod pending;
mod rules;
mod running;
mod sums;
#[cfg(test)]
mod tests;
mod worked;

pub use calls::{call, grow, hint, sink};
pub use memory::Memory;
pub use pending::Pending;
pub use rules::{Rule, RuleCall, UnknownRule};
pub use running::run;
pub use worked::worked_plans;
