// Matrices of n rows as slices in row order, and the plain helpers of the Rust crate. Each helper has two functions: the one with the
// Rust's name is the call, which refuses, and `_unchecked` after that name has the Rust's statements and asks for operands that fit.
#![tactic(auto)]

pub mod checks;
pub mod doubles;
pub mod entries;
pub mod utils;
