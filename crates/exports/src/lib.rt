// The calls for C and Rust: each is a call of a lower crate, its answer in numbers. bindings/millracer.h declares them.
#![tactic(auto)]

pub mod factor;
pub mod helpers;
pub mod records;
pub mod root;
pub mod solving;
pub mod status;
