// Answer records: what bytes they are, and writing them.
#![tactic(auto)]

pub mod write;
