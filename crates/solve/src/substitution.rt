// Forward and backward substitution with the factor, in pivot order.
ghost use Rattle.std.specs.Prelude.{◌≡◌, ◌*◌, ◌<◌, length};
ghost use Rattle.matrix.specs.Matrix.{Square};
ghost use Rattle.matrix.specs.Plain.{AllBelow};
ghost use Rattle.solve.specs.Substitution.{solved_rows, solved, store, forward_sum, forward_row, forward, backward_sum, backward_row, backward, put_back, solve_call_of, solve, length_checks, content_checks, solve_checks, solve_call, Solvable};

use crate::checks::{check_divisors, check_lower, check_order};
use arithmetic::double::finite;
use arithmetic::refusal::{Refusal, refuse};
use matrix::checks;
use matrix::entries::{clear, get};

// Row t becomes v, which is 9 where it isn't finite.
fn store(values: &mut [f64], t: usize, v: f64) -> Result<(), Refusal>
    requires { t < length values.old }
    ensures { solved_rows result values.new ≡ store t v values.old }
{
    values[t] = v;
    refuse(!finite(v), Refusal::StoredNotFinite { step: t })
}

fn forward_sum(l: &[f64], n: usize, z: &[f64], t: usize) -> f64
    requires square { Square n l.now }
    requires t_lt_n { (t < n) × (length z.now ≡ n) }
    ensures { result ≡ forward_sum n l.now z.now t }
{
    let mut sum = 0.0;
    // k is a column's number too.
    for k in 0..t {
        sum += get(l, n, t, k) * z[k];
    }
    sum
}

// z[t] = (b[p[t]] - sum) / L(t, t)
fn forward_row(
    l: &[f64],
    n: usize,
    p: &[usize],
    b: &[f64],
    t: usize,
    z: &mut [f64],
) -> Result<(), Refusal>
    requires solvable { Solvable n l.now p.now b.now }
    requires t_lt_n { (t < n) × (length z.old ≡ n) }
    ensures { solved_rows result z.new ≡ forward_row n l.now p.now b.now t (solved z.old) }
{
    let v = (b[p[t]] - forward_sum(l, n, z, t)) / get(l, n, t, t);
    store(z, t, v)
}

fn forward(l: &[f64], n: usize, p: &[usize], b: &[f64], z: &mut [f64]) -> Result<(), Refusal>
    requires solvable { Solvable n l.now p.now b.now }
    requires z_len { length z.old ≡ n }
    ensures { solved_rows result z.new ≡ forward n l.now p.now b.now }
{
    clear(z);
    for t in 0..n {
        forward_row(l, n, p, b, t, z)?;
    }
    Ok(())
}

fn backward_sum(l: &[f64], n: usize, w: &[f64], t: usize) -> f64
    requires square { Square n l.now }
    requires t_lt_n { (t < n) × (length w.now ≡ n) }
    ensures { result ≡ backward_sum n l.now w.now t }
{
    let mut sum = 0.0;
    // k is a row's number too.
    for k in t + 1..n {
        sum += get(l, n, k, t) * w[k];
    }
    sum
}

// w[t] = (z[t] - sum) / L(t, t)
fn backward_row(l: &[f64], n: usize, t: usize, w: &mut [f64]) -> Result<(), Refusal>
    requires square { Square n l.now }
    requires t_lt_n { (t < n) × (length w.old ≡ n) }
    ensures { solved_rows result w.new ≡ backward_row n l.now t (solved w.old) }
{
    let v = (w[t] - backward_sum(l, n, w, t)) / get(l, n, t, t);
    store(w, t, v)
}

fn backward(l: &[f64], n: usize, w: &mut [f64]) -> Result<(), Refusal>
    requires square { Square n l.now }
    requires w_len { length w.old ≡ n }
    ensures { solved_rows result w.new ≡ backward n l.now (solved w.old) }
{
    for i in 0..n {
        backward_row(l, n, n - 1 - i, w)?;
    }
    Ok(())
}

// Both, in one list.
fn substitute(
    l: &[f64],
    n: usize,
    p: &[usize],
    b: &[f64],
    values: &mut [f64],
) -> Result<(), Refusal>
    requires solvable { Solvable n l.now p.now b.now }
    requires values_len { length values.old ≡ n }
    ensures { solved_rows result values.new ≡ backward n l.now (forward n l.now p.now b.now) }
{
    forward(l, n, p, b, values)?;
    backward(l, n, values)
}

// y[p[t]] = w[t], over +0.0 throughout.
fn put_back(n: usize, p: &[usize], w: &[f64], y: &mut [f64])
    requires p_len { (length p.now ≡ n) × AllBelow n p.now }
    requires w_len { (length w.now ≡ n) × (length y.old ≡ n) }
    ensures { y.new ≡ put_back n p.now w.now }
{
    clear(y);
    for (t, row) in p.iter().enumerate() {
        y[*row] = w[t];
    }
}

// The steps, on operands that passed the checks; `values` is lent for the rows in pivot order.
pub fn solve_unchecked(
    l: &[f64],
    n: usize,
    p: &[usize],
    b: &[f64],
    values: &mut [f64],
    y: &mut [f64],
) -> Result<(), Refusal>
    requires solvable { Solvable n l.now p.now b.now }
    requires values_len { (length values.old ≡ n) × (length y.old ≡ n) }
    ensures { solve_call_of result y.new ≡ solve n l.now p.now b.now }
{
    let outcome = substitute(l, n, p, b, values);
    if outcome.is_ok() {
        put_back(n, p, values, y);
    } else {
        clear(y);
    }
    outcome
}

// 3, 4, 5, 14.
fn length_checks(n: usize, l: usize, y: usize, p: usize, b: usize) -> Result<(), Refusal>
    ensures { result ≡ length_checks n l y p b }
{
    checks::check_size(n)?;
    checks::check_matrix(n, l)?;
    checks::check_buffer(n, y)?;
    checks::check_list(n, p)?;
    checks::check_list(n, b)
}

// 6, 7, 15.
fn content_checks(l: &[f64], n: usize, p: &[usize], b: &[f64]) -> Result<(), Refusal>
    requires { Square n l.now }
    ensures { result ≡ content_checks n l.now p.now b.now }
{
    check_order(n, p)?;
    check_lower(n, l)?;
    checks::check_finite(1, b)?;
    check_divisors(n, l)
}

fn solve_checks(l: &[f64], n: usize, y: usize, p: &[usize], b: &[f64]) -> Result<(), Refusal>
    ensures { result ≡ solve_checks n l.now y p.now b.now }
{
    length_checks(n, l.len(), y, p.len(), b.len())?;
    content_checks(l, n, p, b)
}

// The y with L times L transposed times y equal to b: L and p as a factorization hands them back, b and y by contract.
pub fn solve(l: &[f64], n: usize, p: &[usize], b: &[f64], y: &mut [f64]) -> Result<(), Refusal>
    ensures { solve_call_of result y.new ≡ solve_call n l.now p.now b.now y.old }
{
    solve_checks(l, n, y.len(), p, b)?;
    let mut values = [0.0; 48];
    solve_unchecked(l, n, p, b, &mut values[0..n], y)
}
