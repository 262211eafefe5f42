// What src/se90.rs and src/se99.rs share: a whole run. Its phases are crates/phase_one and crates/phase_two.
ghost use Rattle.std.specs.Prelude.{◌≡◌, ◌<◌, length};
ghost use Rattle.matrix.specs.Matrix.{Square};
ghost use Rattle.methods.specs.Calls.{call, answered, Operands};
ghost use Rattle.methods.specs.Elimination.{Symmetric};
ghost use Rattle.methods.specs.Factor.{tolerances};
ghost use Rattle.methods.specs.Se.{state, lowered, run, mod_cholesky_se};

use crate::calls;
use crate::se90::Se90;
use crate::se99::Se99;
use methods::decomposition::Decomposition;
use methods::progress::Progress;
use methods::schnabel_eskow::{Parameters, Tolerances, Variant};

// Both phases; g and diag are scratch.
fn phases(
    v: Variant,
    t: Tolerances,
    a: &[f64],
    n: usize,
    numbers: &[u32],
    l: &mut [f64],
    e: &mut [f64],
    g: &mut [f64],
    diag: &mut [f64],
    p: &mut [usize],
) -> Progress
    requires square { Square n a.now }
    requires square_2 { Square n l.old }
    requires e_len { (length e.old ≡ n) × (length g.old ≡ n) × (length diag.old ≡ n) × (length p.old ≡ n) × Symmetric n a.now }
    ensures { lowered n (state l.new e.new g.new p.new result) ≡ lowered n (run v t numbers.now n a.now) }
{
    // Put together here, where gamma is read off the matrix: earlier it would take a premise that gamma is what it is.
    let params = Parameters {
        variant: v,
        tolerances: t,
        gamma: statements::diagonal_max(a, n),
        numbers,
    };
    let started = phase_one::begin(a, n, l, e, g, p);
    let first = phase_one::phase_one(&params, l, p, diag, n, started);
    phase_two::phase_two(&params, l, e, g, p, n, first)
}

// A whole run, with its fillings where it is refused.
fn run_with(
    v: Variant,
    t: Tolerances,
    a: &[f64],
    n: usize,
    numbers: &[u32],
    l: &mut [f64],
    work: &mut [f64],
    e: &mut [f64],
    g: &mut [f64],
    diag: &mut [f64],
    p: &mut [usize],
) -> Decomposition
    requires square { Square n a.now }
    requires square_2 { Square n l.old }
    requires square_3 { Square n work.old }
    requires e_len { (length e.old ≡ n) × (length g.old ≡ n) × (length diag.old ≡ n) × (length p.old ≡ n) × (0 < n) × Symmetric n a.now }
    ensures { call result l.new work.new e.new p.new ≡ answered n (mod_cholesky_se v t numbers.now n a.now) }
{
    let r = phases(v, t, a, n, numbers, l, e, g, diag, p);
    statements::lower_triangle(l, n);
    statements::reorder(p, e, diag, n);
    calls::hand_back(l, work, e, p, n, r)
}

fn tolerances_of(v: Variant) -> Tolerances
    ensures { result ≡ tolerances }
{
    match v {
        Variant::Se90 => Se90::tolerances(),
        Variant::Se99 => Se99::tolerances(),
    }
}

pub fn run(
    v: Variant,
    a: &[f64],
    n: usize,
    numbers: &[u32],
    l: &mut [f64],
    work: &mut [f64],
    e: &mut [f64],
    p: &mut [usize],
) -> Decomposition
    requires { Operands n a.now (length l.old) (length work.old) (length e.old) (length p.old) }
    ensures { call result l.new work.new e.new p.new ≡ answered n (mod_cholesky_se v tolerances numbers.now n a.now) }
{
    let mut g = [0.0; 48];
    let mut diag = [0.0; 48];
    let t = tolerances_of(v);
    run_with(
        v,
        t,
        a,
        n,
        numbers,
        l,
        work,
        e,
        &mut g[0..n],
        &mut diag[0..n],
        p,
    )
}
