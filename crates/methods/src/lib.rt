// What the methods GMW81, SE90 and SE99 are: their values as types; their steps, calls and laws are in specs/ and proofs/.
#![tactic(auto)]

pub mod decomposition;
pub mod gmw81;
pub mod method;
pub mod progress;
pub mod schnabel_eskow;
