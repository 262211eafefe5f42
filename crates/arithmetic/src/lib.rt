// The arithmetic of doubles that the matrix helpers and the factorizations stand on.
#![tactic(auto)]

pub mod double;
mod isqrt;
pub mod refusal;
pub mod sqrt;
