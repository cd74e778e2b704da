// Operator sets: what the rules may ask of a plan's operators, and the sets that answer.
#![tactic(auto)]

mod answers;
mod catalogue;
mod declarations;
mod declaring;
mod held;
mod questions;
mod set;
mod windows;

pub use answers::{
    CardinalityEffect, FrameBound, FrameUnits, KnownEmpty, LimitEffect, LimitsPass, PartitionCount,
    WindowExpr,
};
pub use catalogue::CatalogueSet;
pub use declarations::{Declaration, Shape};
pub use held::DeclaredSet;
pub use questions::{
    effect, fits, known_empty, partitions, passes_limits, takes_fetch, takes_mark,
};
pub use set::OperatorSet;
pub use windows::Reach;
