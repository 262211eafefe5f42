// The modified Cholesky factorizations GMW81, SE90 and SE99.
#![tactic(auto)]

pub mod calls;
pub mod gmw81;
pub mod se;
pub mod se90;
pub mod se99;
