// src/se90.rs: Schnabel and Eskow 1990. Its run is se.rt, its phases crates/phase_one and crates/phase_two.
ghost use Rattle.std.specs.Prelude.{◌≡◌};
ghost use Rattle.methods.specs.Calls.{call, factor_call};
ghost use Rattle.methods.specs.Factor.{tolerances};

use crate::calls;
use crate::se99::Se99;
use methods::decomposition::Decomposition;
use methods::schnabel_eskow::Tolerances;

// The Rust's two types have the constants twice.
#[derive(Clone, Copy)]
pub struct Se90 {}

impl Se90 {
    // The double nearest the cube root of EPSILON.
    pub const TAU: f64 = 0.0000060554544523933395;

    pub fn tolerances() -> Tolerances
        ensures { result ≡ tolerances }
    {
        Tolerances {
            tau: Se90::TAU,
            tau_bar: Se99::TAU_BAR,
            mu: Se99::MU,
        }
    }
}

pub fn mod_cholesky_se90(
    a: &[f64],
    n: usize,
    l: &mut [f64],
    work: &mut [f64],
    e: &mut [f64],
    p: &mut [usize],
) -> Decomposition
    ensures { call result l.new work.new e.new p.new ≡ factor_call 2 n a.now l.old work.old e.old p.old }
{
    calls::factor(2, a, n, l, work, e, p)
}
