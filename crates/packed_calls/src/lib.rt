// Calls of rules on packed plans, under any operator set: unpack, call, pack.
#![tactic(auto)]

mod codes;
mod converting;

pub use converting::{convert, convert_large};
