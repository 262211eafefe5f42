// src/se99.rs: Schnabel and Eskow 1999. Its run is se.rt, its phases crates/phase_one and crates/phase_two.
ghost use Rattle.std.specs.Prelude.{◌≡◌};
ghost use Rattle.methods.specs.Calls.{call, factor_call};
ghost use Rattle.methods.specs.Factor.{tolerances};

use crate::calls;
use methods::decomposition::Decomposition;
use methods::schnabel_eskow::Tolerances;

#[derive(Clone, Copy)]
pub struct Se99 {}

impl Se99 {
    // The double nearest the cube root of EPSILON.
    pub const TAU: f64 = 0.0000060554544523933395;

    pub const TAU_BAR: f64 = 0.0000060554544523933395;

    pub const MU: f64 = 0.1;

    pub fn tolerances() -> Tolerances
        ensures { result ≡ tolerances }
    {
        Tolerances {
            tau: Se99::TAU,
            tau_bar: Se99::TAU_BAR,
            mu: Se99::MU,
        }
    }
}

pub fn mod_cholesky_se99(
    a: &[f64],
    n: usize,
    l: &mut [f64],
    work: &mut [f64],
    e: &mut [f64],
    p: &mut [usize],
) -> Decomposition
    ensures { call result l.new work.new e.new p.new ≡ factor_call 3 n a.now l.old work.old e.old p.old }
{
    calls::factor(3, a, n, l, work, e, p)
}
