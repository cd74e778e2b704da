// Calls in C's convention for tests and measurements: under declared sets and under sets whose answers a table gives, on packed plans
// of up to 4,096 nodes; and calls on cell tables, over and over.
#![tactic(auto)]

mod exports;
mod held;
mod reading;
mod repeating;
mod row_types;
mod tables;

pub use exports::{driver_declared, driver_table};
pub use held::TableSet;
pub use repeating::driver_repeat;
pub use row_types::{DeclarationRow, ExprRow, GroupRow, OperatorRow};
