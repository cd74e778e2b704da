// Cells drawn as DataFusion's EXPLAIN draws operators.
#![tactic(auto)]

mod lines;

pub use lines::describe;
