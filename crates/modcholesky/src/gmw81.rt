// src/gmw81.rs: Gill, Murray and Wright 1981. Its steps are crates/gmw81_steps.
ghost use Rattle.std.specs.Prelude.{◌≡◌, ◌<◌, length};
ghost use Rattle.matrix.specs.Checks.{AllFinite};
ghost use Rattle.matrix.specs.Matrix.{Square};
ghost use Rattle.methods.specs.Calls.{call, answered, factor_call, Operands};
ghost use Rattle.methods.specs.Gmw81.{state, stepped, mod_cholesky_gmw81};

use crate::calls;
use gmw81_steps::Limits;
use methods::decomposition::Decomposition;
use methods::progress::Progress;

// The steps of a run.
fn stepped(
    a: &[f64],
    n: usize,
    numbers: &[u32],
    l: &mut [f64],
    c: &mut [f64],
    d: &mut [f64],
    diag: &mut [f64],
    e: &mut [f64],
    p: &mut [usize],
) -> Progress
    requires square { Square n a.now }
    requires square_2 { Square n l.old }
    requires square_3 { Square n c.old }
    requires d_len { (length d.old ≡ n) × (length diag.old ≡ n) × (length e.old ≡ n) × (length p.old ≡ n) }
    ensures { state l.new c.new d.new e.new p.new result ≡ stepped numbers.now n a.now }
{
    let diag_max = statements::diagonal_max(a, n);
    let off_diag_max = gmw81_steps::off_diagonal_max(a, n);
    let limits = Limits {
        delta: gmw81_steps::delta_of(diag_max, off_diag_max),
        beta: gmw81_steps::beta_of(n, diag_max, off_diag_max),
    };
    let started = gmw81_steps::begin(a, n, l, c, d, e, p);
    gmw81_steps::steps(numbers, l, c, d, e, p, diag, n, limits, started)
}

// A whole run, with its fillings where it is refused; d and diag are scratch.
fn run_with(
    a: &[f64],
    n: usize,
    numbers: &[u32],
    l: &mut [f64],
    c: &mut [f64],
    d: &mut [f64],
    diag: &mut [f64],
    e: &mut [f64],
    p: &mut [usize],
) -> Decomposition
    requires square { Square n a.now }
    requires all_finite { AllFinite n a.now }
    requires square_2 { Square n l.old }
    requires square_3 { Square n c.old }
    requires d_len { (length d.old ≡ n) × (length diag.old ≡ n) × (length e.old ≡ n) × (length p.old ≡ n) × (0 < n) }
    ensures { call result l.new c.new e.new p.new ≡ answered n (mod_cholesky_gmw81 numbers.now n a.now) }
{
    let r = stepped(a, n, numbers, l, c, d, diag, e, p);
    let finished = gmw81_steps::finish(l, d, e, p, diag, n, r);
    calls::hand_back(l, c, e, p, n, finished)
}

pub fn run(
    a: &[f64],
    n: usize,
    numbers: &[u32],
    l: &mut [f64],
    work: &mut [f64],
    e: &mut [f64],
    p: &mut [usize],
) -> Decomposition
    requires { Operands n a.now (length l.old) (length work.old) (length e.old) (length p.old) }
    ensures { call result l.new work.new e.new p.new ≡ answered n (mod_cholesky_gmw81 numbers.now n a.now) }
{
    let mut d = [0.0; 48];
    let mut diag = [0.0; 48];
    run_with(a, n, numbers, l, work, &mut d[0..n], &mut diag[0..n], e, p)
}

pub fn mod_cholesky_gmw81(
    a: &[f64],
    n: usize,
    l: &mut [f64],
    work: &mut [f64],
    e: &mut [f64],
    p: &mut [usize],
) -> Decomposition
    ensures { call result l.new work.new e.new p.new ≡ factor_call 1 n a.now l.old work.old e.old p.old }
{
    calls::factor(1, a, n, l, work, e, p)
}
