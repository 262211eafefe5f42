// Document 01's calls on bytes: doubles are eight bytes, low byte first, indices one byte each.
#![tactic(auto)]

pub mod gershgorin;
pub mod plain;
pub mod searches;
pub mod swaps;
