// What the notation of plans and of packed bytes rests on: problems and their columns, the letters of kinds, hexadecimal pairs.
#![tactic(auto)]

mod hex;
mod letters;
mod problems;

pub use hex::{is_blank, read_hex, write_hex};
pub use letters::{kind_of, letter_of};
pub use problems::{Problem, Slip};
