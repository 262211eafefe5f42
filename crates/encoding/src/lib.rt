// Doubles, indices and contract numbers as bytes, low byte first.
#![tactic(auto)]

pub mod checks;
pub mod double_bytes;
pub mod read;
pub mod write;
