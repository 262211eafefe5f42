// The steps of src/gmw81.rs: Gill, Murray and Wright 1981.
#![tactic(auto)]

ghost use Rattle.std.specs.Prelude.{◌≡◌, List, ◌+◌, ◌*◌, ◌<◌, ◌≤◌, length, get_or, Float};
ghost use Rattle.std.specs.Float.{nan};
ghost use Rattle.std.specs.Float.Ieee.Scale.{finite};
ghost use Rattle.arithmetic.specs.All.{all};
ghost use Rattle.arithmetic.specs.Double.{plus_zero, one, ◌⊕◌, ◌⊗◌};
ghost use Rattle.arithmetic.specs.Loop.{range};
ghost use Rattle.arithmetic.specs.Sqrt.{sqrt};
ghost use Rattle.matrix.specs.Checks.{AllFinite};
ghost use Rattle.matrix.specs.Matrix.{Square, at, put, zeros};
ghost use Rattle.matrix.specs.Plain.{AllBelow};
ghost use Rattle.matrix.specs.Table.{table};
ghost use Rattle.methods.specs.Gmw81.{Stepped, Finished, fold_off_diagonal, fold_row, off_diagonal_max, delta_of, beta_of, state, start, divide_row, dot, column, theta_of, d_of, update_diagonal, stored_finite, step_at, step, dout_of, inexact_roots, unit_lower, product, scaled_finite};
ghost use Rattle.methods.specs.Progress.{stores};

use arithmetic::double;
use arithmetic::double::{abs, finite, max, square};
use arithmetic::sqrt::{sqrt_flagged, sqrt_unchecked};
use matrix::checks::list_finite;
use matrix::entries::{clear, get, put};
use methods::gmw81::StepValues;
use methods::progress::{Progress, Stores, one_if};
use statements::larger_magnitude;

// Each d[j] is at least delta, and so large that column j of L times its root stays within beta, but for rounding.
#[derive(Clone, Copy)]
pub struct Limits {
    pub delta: f64,
    pub beta: f64,
}

// ---- before the steps

#[tactic(auto, unfolding(methods::specs::Gmw81::fold_off_diagonal))]
fn fold_off_diagonal(l: &[f64], n: usize, i: usize, k: usize, acc: f64) -> f64
    requires square { Square n l.now }
    requires i_lt_n { (i < n) × (k < n) }
    ensures { result ≡ fold_off_diagonal n l.now i k acc }
{
    if i == k {
        acc
    } else {
        larger_magnitude(acc, get(l, n, i, k))
    }
}

fn fold_row(l: &[f64], n: usize, i: usize, mut acc: f64) -> f64
    requires square { Square n l.now }
    requires i_lt_n { i < n }
    ensures { result ≡ fold_row n l.now i acc }
{
    for k in 0..n {
        acc = fold_off_diagonal(l, n, i, k, acc);
    }
    acc
}

pub fn off_diagonal_max(l: &[f64], n: usize) -> f64
    requires { Square n l.now }
    ensures { result ≡ off_diagonal_max n l.now }
{
    let mut acc = 0.0;
    for i in 0..n {
        acc = fold_row(l, n, i, acc);
    }
    acc
}

#[tactic(auto, unfolding(methods::specs::Gmw81::delta_of))]
pub fn delta_of(diag_max: f64, off_diag_max: f64) -> f64
    ensures { result ≡ delta_of diag_max off_diag_max }
{
    double::EPSILON * max(1.0, diag_max + off_diag_max)
}

#[tactic(auto, unfolding(methods::specs::Gmw81::beta_of, methods::specs::Gmw81::count))]
pub fn beta_of(n: usize, diag_max: f64, off_diag_max: f64) -> f64
    requires { n ≤ 48 }
    ensures { result ≡ beta_of n diag_max off_diag_max }
{
    let root = sqrt_unchecked(square(n as f64) - 1.0);
    sqrt_unchecked(max(max(diag_max, off_diag_max / root), double::EPSILON))
}

fn start_diagonal(a: &[f64], c: &mut [f64], n: usize)
    requires square { Square n a.now }
    requires square_2 { Square n c.old }
    requires c_value { c.old ≡ zeros (n * n) }
    ensures { c.new ≡ (start n a.now).c }
{
    for i in 0..n {
        put(c, n, i, i, get(a, n, i, i));
    }
}

pub fn begin(
    a: &[f64],
    n: usize,
    l: &mut [f64],
    c: &mut [f64],
    d: &mut [f64],
    e: &mut [f64],
    p: &mut [usize],
) -> Progress
    requires square { Square n a.now }
    requires square_2 { Square n l.old }
    requires square_3 { Square n c.old }
    requires d_len { (length d.old ≡ n) × (length e.old ≡ n) × (length p.old ≡ n) }
    ensures { state l.new c.new d.new e.new p.new result ≡ start n a.now }
{
    statements::copy(a, l);
    clear(c);
    start_diagonal(a, c, n);
    clear(d);
    clear(e);
    statements::count_up(p);
    Progress::begun()
}

// ---- a step

fn divide_row(c: &[f64], d: &[f64], l: &mut [f64], n: usize, j: usize)
    requires square { Square n c.now }
    requires square_2 { Square n l.old }
    requires j_lt_n { (j < n) × (length d.now ≡ n) }
    ensures { l.new ≡ divide_row n j c.now d.now l.old }
{
    // s is a column's number too.
    for s in 0..j {
        put(l, n, j, s, get(c, n, j, s) / d[s]);
    }
}

fn dot(l: &[f64], c: &[f64], n: usize, j: usize, i: usize) -> f64
    requires square { Square n l.now }
    requires square_2 { Square n c.now }
    requires j_lt_n { (j < n) × (i < n) }
    ensures { result ≡ dot n j l.now c.now i }
{
    let mut sum = 0.0;
    for s in 0..j {
        sum += get(l, n, j, s) * get(c, n, i, s);
    }
    sum
}

fn column(l: &[f64], c: &mut [f64], n: usize, j: usize)
    requires square { Square n l.now }
    requires square_2 { Square n c.old }
    requires j_lt_n { j < n }
    ensures { c.new ≡ column n j l.now c.old }
{
    for i in j..n {
        let v = get(l, n, i, j) - dot(l, c, n, j, i);
        put(c, n, i, j, v);
    }
}

fn theta_of(c: &[f64], n: usize, j: usize) -> f64
    requires square { Square n c.now }
    requires j_lt_n { j < n }
    ensures { result ≡ theta_of n j c.now }
{
    let mut acc = 0.0;
    for i in j + 1..n {
        acc = larger_magnitude(acc, get(c, n, i, j));
    }
    acc
}

#[tactic(auto, unfolding(methods::specs::Gmw81::d_of))]
fn d_of(cjj: f64, theta: f64, beta: f64, delta: f64) -> f64
    ensures { result ≡ d_of cjj theta beta delta }
{
    max(max(abs(cjj), square(theta / beta)), delta)
}

fn update_diagonal(c: &mut [f64], n: usize, j: usize, dj: f64)
    requires square { Square n c.old }
    requires j_lt_n { j < n }
    ensures { c.new ≡ update_diagonal n j dj c.old }
{
    for i in j + 1..n {
        let v = get(c, n, i, i) - square(get(c, n, i, j)) / dj;
        put(c, n, i, i, v);
    }
}

// Whether row j before its diagonal, column j from it on and the diagonal after j are finite: a loop each, since one loop over a closure
// would need a contract of what the closure gives. Without an early end, so that the machine can test several at once.
fn row_before_finite(l: &[f64], n: usize, j: usize) -> bool
    requires square { Square n l.now }
    requires j_lt_n { j < n }
    ensures { result ≡ all 0 j (λ s. finite (at n l.now j s)) }
{
    let mut ok = true;
    for s in 0..j {
        ok &= finite(get(l, n, j, s));
    }
    ok
}

fn column_finite(c: &[f64], n: usize, j: usize) -> bool
    requires square { Square n c.now }
    requires j_lt_n { j < n }
    ensures { result ≡ all j n (λ i. finite (at n c.now i j)) }
{
    let mut ok = true;
    for i in j..n {
        ok &= finite(get(c, n, i, j));
    }
    ok
}

fn diagonal_finite(c: &[f64], n: usize, j: usize) -> bool
    requires square { Square n c.now }
    requires j_lt_n { j < n }
    ensures { result ≡ all (j + 1) n (λ i. finite (at n c.now i i)) }
{
    let mut ok = true;
    for i in j + 1..n {
        ok &= finite(get(c, n, i, i));
    }
    ok
}

#[tactic(auto, unfolding(methods::specs::Gmw81::stored_finite))]
fn stored_finite(l: &[f64], c: &[f64], n: usize, j: usize, dj: f64, ej: f64) -> bool
    requires square { Square n l.now }
    requires square_2 { Square n c.now }
    requires j_lt_n { j < n }
    ensures { result ≡ stored_finite n j l.now c.now dj ej }
{
    row_before_finite(l, n, j)
        & column_finite(c, n, j)
        & diagonal_finite(c, n, j)
        & finite(dj)
        & finite(ej)
}

// The statements between the pivot and the stores to d and e.
fn step_values(
    l: &mut [f64],
    c: &mut [f64],
    d: &[f64],
    n: usize,
    limits: Limits,
    j: usize,
    max_idx: usize,
) -> StepValues
    requires square { Square n l.old }
    requires square_2 { Square n c.old }
    requires max_idx_bound { (j + max_idx < n) × (length d.now ≡ n) }
    ensures { Stepped n limits.delta limits.beta j max_idx l.old c.old d.now l.new c.new result }
{
    statements::pivot_matrix(c, n, j, max_idx);
    statements::pivot_matrix(l, n, j, max_idx);
    divide_row(c, d, l, n, j);
    column(l, c, n, j);
    let theta = theta_of(c, n, j);
    let dj = d_of(get(c, n, j, j), theta, limits.beta, limits.delta);
    update_diagonal(c, n, j, dj);
    let ej = dj - get(c, n, j, j);
    StepValues {
        d: dj,
        e: ej,
        pivot: max_idx,
    }
}

fn step_at(
    l: &mut [f64],
    c: &mut [f64],
    d: &mut [f64],
    e: &mut [f64],
    p: &mut [usize],
    n: usize,
    limits: Limits,
    j: usize,
    max_idx: usize,
    tie: bool,
    r: Progress,
) -> Progress
    requires square { Square n l.old }
    requires square_2 { Square n c.old }
    requires d_len { (length d.old ≡ n) × (length e.old ≡ n) × (length p.old ≡ n) }
    requires max_idx_bound { j + max_idx < n }
    ensures { state l.new c.new d.new e.new p.new result ≡ step_at n limits.delta limits.beta j max_idx tie (state l.old c.old d.old e.old p.old r) }
{
    let v = step_values(l, c, d, n, limits, j, max_idx);
    d[j] = v.d;
    e[j] = v.e;
    statements::pivot_list(p, j, v.pivot);
    let ok = stored_finite(l, c, n, j, v.d, v.e);
    r.searched(tie, j).stored(ok, j)
}

fn step(
    numbers: &[u32],
    l: &mut [f64],
    c: &mut [f64],
    d: &mut [f64],
    e: &mut [f64],
    p: &mut [usize],
    diag: &mut [f64],
    n: usize,
    limits: Limits,
    j: usize,
    r: Progress,
) -> Progress
    requires square { Square n l.old }
    requires square_2 { Square n c.old }
    requires d_len { (length d.old ≡ n) × (length e.old ≡ n) × (length p.old ≡ n) × (length diag.old ≡ n) }
    requires j_lt_n { j < n }
    ensures { state l.new c.new d.new e.new p.new result ≡ step numbers.now n limits.delta limits.beta j (state l.old c.old d.old e.old p.old r) }
{
    if r.stopped() {
        return r;
    }
    let f = statements::search_diagonal(numbers, p, true, c, n, j, diag);
    step_at(l, c, d, e, p, n, limits, j, f.index, f.tied, r)
}

pub fn steps(
    numbers: &[u32],
    l: &mut [f64],
    c: &mut [f64],
    d: &mut [f64],
    e: &mut [f64],
    p: &mut [usize],
    diag: &mut [f64],
    n: usize,
    limits: Limits,
    mut r: Progress,
) -> Progress
    requires square { Square n l.old }
    requires square_2 { Square n c.old }
    requires d_len { (length d.old ≡ n) × (length e.old ≡ n) × (length p.old ≡ n) × (length diag.old ≡ n) }
    ensures { state l.new c.new d.new e.new p.new result ≡ range 0 n (step numbers.now n limits.delta limits.beta) (state l.old c.old d.old e.old p.old r) }
{
    for j in 0..n {
        r = step(numbers, l, c, d, e, p, diag, n, limits, j, r);
    }
    r
}

// ---- after the steps

// d becomes its roots; how many of them are inexact.
fn roots(d: &mut [f64]) -> usize
    ensures d_after { d.new ≡ table (length d.old) (λ i. sqrt (get_or d.old i nan)) }
    ensures value { result ≡ inexact_roots (length d.old) d.old }
{
    let mut inexact = 0;
    for x in d.iter_mut() {
        let root = sqrt_flagged(*x);
        *x = root.value;
        inexact += one_if(root.inexact);
    }
    inexact
}

fn unit_diagonal(l: &mut [f64], n: usize)
    requires { Square n l.old }
    ensures { l.new ≡ range 0 n (λ i m. put n m i i one) l.old }
{
    for i in 0..n {
        put(l, n, i, i, 1.0);
    }
}

// Row i of l times dout, whose diagonal is r: in the sum of entry (i, k) every other term is a zero.
fn scale_row(l: &mut [f64], r: &[f64], n: usize, i: usize)
    requires square { Square n l.old }
    requires r_len { (length r.now ≡ n) × (i < n) }
    ensures { l.new ≡ range 0 n (λ k m. put n m i k (plus_zero ⊕ at n m i k ⊗ get_or r.now k nan)) l.old }
{
    // k is a column's number too.
    for k in 0..n {
        let v = 0.0 + get(l, n, i, k) * r[k];
        put(l, n, i, k, v);
    }
}

fn scale_rows(l: &mut [f64], r: &[f64], n: usize)
    requires square { Square n l.old }
    requires r_len { length r.now ≡ n }
    ensures { l.new ≡ range 0 n (λ i. range 0 n (λ k m. put n m i k (plus_zero ⊕ at n m i k ⊗ get_or r.now k nan))) l.old }
{
    for i in 0..n {
        scale_row(l, r, n, i);
    }
}

// The scaled factor, whether step n stored finite values alone, and how many of its roots are inexact.
fn scale(l: &mut [f64], d: &mut [f64], n: usize) -> Stores
    requires square { Square n l.old }
    requires all_finite { AllFinite n l.old }
    requires d_len { (length d.old ≡ n) × (0 < n) }
    ensures l_after { l.new ≡ product n (unit_lower n l.old) (dout_of n d.old) }
    ensures value { result ≡ stores (scaled_finite n (dout_of n d.old) (product n (unit_lower n l.old) (dout_of n d.old))) (inexact_roots n d.old) }
{
    let inexact = roots(d);
    unit_diagonal(l, n);
    statements::lower_triangle(l, n);
    scale_rows(l, d, n);
    Stores {
        ok: list_finite(d, 0) & list_finite(l, 0),
        inexact,
    }
}

pub fn finish(
    l: &mut [f64],
    d: &mut [f64],
    e: &mut [f64],
    p: &[usize],
    ec: &mut [f64],
    n: usize,
    r: Progress,
) -> Progress
    requires square { Square n l.old }
    requires all_finite { r.refused ≡ None → AllFinite n l.old }
    requires d_len { (length d.old ≡ n) × (length e.old ≡ n) × (length p.now ≡ n) × (length ec.old ≡ n) × (0 < n) × (r.inexact ≡ 0) }
    requires all_below { AllBelow n p.now }
    ensures { (c : List Float) → Finished n l.old c d.old e.old p.now r l.new e.new result }
{
    if r.refused.is_some() {
        return r;
    }
    let stores = scale(l, d, n);
    statements::reorder(p, e, ec, n);
    r.rooted(stores, n)
}
