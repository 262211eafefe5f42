// The Gershgorin circles of a matrix.
#![tactic(auto)]

pub mod gershgorin;
