// What SE90 and SE99 share of phase one.
#![tactic(auto)]

ghost use Rattle.std.specs.Prelude.{◌≡◌, List, ℕ, ◌+◌, ◌*◌, ◌≤◌, ◌<◌, length, Float};
ghost use Rattle.matrix.specs.Matrix.{Square};
ghost use Rattle.methods.specs.Statements.{pivot_matrix, pivot_list};
ghost use Rattle.methods.specs.Elimination.{mirrored};
ghost use Rattle.methods.specs.Se.{state, start, fold_next, tmp_of, aii_max, aii_min, leaves_before, leaves_after, factorize, step_at, phase_one_step, phase_one};

use arithmetic::double::square;
use matrix::entries::{clear, get};
use methods::progress::Progress;
use methods::schnabel_eskow::{Parameters, Variant};

#[tactic(auto, unfolding(methods::specs::Se::start))]
pub fn begin(
    a: &[f64],
    n: usize,
    l: &mut [f64],
    e: &mut [f64],
    g: &mut [f64],
    p: &mut [usize],
) -> Progress
    requires square { Square n a.now }
    requires square_2 { Square n l.old }
    requires e_len { (length e.old ≡ n) × (length g.old ≡ n) × (length p.old ≡ n) }
    ensures { state l.new e.new g.new p.new result ≡ start n a.now }
{
    statements::copy(a, l);
    clear(e);
    clear(g);
    statements::count_up(p);
    Progress::begun()
}

// ---- the tests

#[tactic(auto, unfolding(methods::specs::Se::fold_next))]
fn fold_next(l: &[f64], n: usize, j: usize, i: usize, acc: f64) -> f64
    requires square { Square n l.now }
    requires j_lt_n { (j < n) × (i < n) }
    ensures { result ≡ fold_next n j l.now i acc }
{
    let nv = get(l, n, i, i) - square(get(l, n, i, j)) / get(l, n, j, j);
    if nv < acc { nv } else { acc }
}

fn tmp_of(l: &[f64], n: usize, j: usize) -> f64
    requires square { Square n l.now }
    requires j_lt_n { j < n }
    ensures { result ≡ tmp_of n j l.now }
{
    (j + 1..n).fold(f64::INFINITY, |acc, i| fold_next(l, n, j, i, acc))
}

// The twin of aii_min but for what it looks for: one fold over the diagonal is all that both have.
fn aii_max(l: &[f64], n: usize, j: usize) -> f64
    requires square { Square n l.now }
    requires j_lt_n { j < n }
    ensures { result ≡ aii_max n j l.now }
{
    (j..n)
        .map(|i| get(l, n, i, i))
        .fold(f64::NEG_INFINITY, |acc, x| if x > acc { x } else { acc })
}

fn aii_min(l: &[f64], n: usize, j: usize) -> f64
    requires square { Square n l.now }
    requires j_lt_n { j < n }
    ensures { result ≡ aii_min n j l.now }
{
    (j..n)
        .map(|i| get(l, n, i, i))
        .fold(f64::INFINITY, |acc, x| if x < acc { x } else { acc })
}

// SE99's test before the search.
#[tactic(auto, unfolding(methods::specs::Se::leaves_before))]
fn leaves_before(params: &Parameters, l: &[f64], n: usize, j: usize) -> bool
    requires square { Square n l.now }
    requires j_lt_n { j < n }
    ensures { result ≡ leaves_before params.now.variant params.now.tolerances params.now.gamma n j l.now }
{
    let t = params.tolerances;
    match params.variant {
        Variant::Se90 => false,
        Variant::Se99 => {
            let max = aii_max(l, n, j);
            max < t.tau_bar * params.gamma || aii_min(l, n, j) < -t.mu * max
        }
    }
}

// The test after search and swap: SE90 also ends on a pivot that is zero or negative.
#[tactic(auto, unfolding(methods::specs::Se::leaves_after))]
fn leaves_after(params: &Parameters, l: &[f64], n: usize, j: usize) -> bool
    requires square { Square n l.now }
    requires j_lt_n { j < n }
    ensures { result ≡ leaves_after params.now.variant params.now.tolerances params.now.gamma n j l.now }
{
    let t = params.tolerances;
    match params.variant {
        Variant::Se90 => get(l, n, j, j) <= 0.0 || tmp_of(l, n, j) < t.tau * params.gamma,
        Variant::Se99 => tmp_of(l, n, j) < -t.mu * params.gamma,
    }
}

// ---- a step

// The pivot max_idx after j goes to j. From here on l holds a symmetric matrix on and below the diagonal.
pub fn pivot(l: &mut [f64], p: &mut [usize], n: usize, j: usize, max_idx: usize)
    requires square { Square n l.old }
    requires p_len { (length p.old ≡ n) × (j + max_idx < n) }
    ensures { (mirrored n l.new ≡ pivot_matrix n j max_idx (mirrored n l.old)) × (p.new ≡ pivot_list 0 j max_idx p.old) }
{
    statements::pivot_symmetric(l, n, j, max_idx);
    statements::pivot_list(p, j, max_idx);
}

fn step_at(
    params: &Parameters,
    l: &mut [f64],
    p: &mut [usize],
    n: usize,
    j: usize,
    max_idx: usize,
    tie: bool,
    r: Progress,
) -> Progress
    requires square { Square n l.old }
    requires p_len { (length p.old ≡ n) × (j + max_idx < n) × (r.inexact ≤ j) }
    ensures { (e g : List Float) → state (mirrored n l.new) e g p.new result ≡ step_at params.now.variant params.now.tolerances params.now.gamma n j max_idx tie (state (mirrored n l.old) e g p.old r) }
{
    pivot(l, p, n, j, max_idx);
    let pivoted = r.searched(tie, j);
    if leaves_after(params, l, n, j) {
        return pivoted.left(j);
    }
    factorize(l, n, j, pivoted)
}

// The jth iteration of the factorization: a step counts one root at most.
#[tactic(auto, unfolding(methods::specs::Se::factorize))]
fn factorize(l: &mut [f64], n: usize, j: usize, r: Progress) -> Progress
    requires square { Square n l.old }
    requires j_lt_n { (j < n) × (r.inexact ≤ j) }
    ensures { (e g : List Float) (p : List ℕ) → state (mirrored n l.new) e g p result ≡ factorize n j (state (mirrored n l.old) e g p r) }
{
    let stores = statements::eliminate(l, n, j);
    r.rooted(stores, j)
}

fn phase_one_step(
    params: &Parameters,
    l: &mut [f64],
    p: &mut [usize],
    diag: &mut [f64],
    n: usize,
    j: usize,
    r: Progress,
) -> Progress
    requires square { Square n l.old }
    requires p_len { (length p.old ≡ n) × (length diag.old ≡ n) × (j < n) × (r.inexact ≤ j) }
    ensures { (e g : List Float) → state (mirrored n l.new) e g p.new result ≡ phase_one_step params.now.variant params.now.tolerances params.now.numbers.now params.now.gamma n j (state (mirrored n l.old) e g p.old r) }
{
    if leaves_before(params, l, n, j) {
        return r.left(j);
    }
    let f = statements::search_diagonal(params.numbers, p, false, l, n, j, diag);
    step_at(params, l, p, n, j, f.index, f.tied, r)
}

pub fn phase_one(
    params: &Parameters,
    l: &mut [f64],
    p: &mut [usize],
    diag: &mut [f64],
    n: usize,
    r: Progress,
) -> Progress
    requires square { Square n l.old }
    requires p_len { (length p.old ≡ n) × (length diag.old ≡ n) × (r.inexact ≡ 0) }
    ensures { (e g : List Float) → state (mirrored n l.new) e g p.new result ≡ phase_one params.now.variant params.now.tolerances params.now.numbers.now params.now.gamma n (state (mirrored n l.old) e g p.old r) }
{
    let mut q = r;
    for j in 0..n {
        if q.stopped() {
            return q;
        }
        q = phase_one_step(params, l, p, diag, n, j, q);
    }
    q
}
