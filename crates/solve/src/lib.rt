// Solving with the factor (document 02, N3).
#![tactic(auto)]

pub mod checks;
pub mod substitution;
