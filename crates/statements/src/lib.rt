// Statements that the methods share.
#![tactic(auto)]

ghost use Rattle.std.specs.Prelude.{◌≡◌, cond, ◌&&◌, ℕ, ◌+◌, ◌<◌, ◌≤◌, length, get_or, ltb};
ghost use Rattle.std.specs.Float.{nan};
ghost use Rattle.arithmetic.specs.Double.{◌⊘◌};
ghost use Rattle.arithmetic.specs.Sqrt.{inexact};
ghost use Rattle.matrix.specs.Matrix.{Square, at};
ghost use Rattle.matrix.specs.Plain.{AllBelow};
ghost use Rattle.methods.specs.Statements.{larger_magnitude, diagonal_max, diagonal, number_at, smallest_number, pick, pivot_matrix, pivot_list, eliminate, clear_after, lower_triangle, reorder, block_finite};
ghost use Rattle.methods.specs.Elimination.{mirrored, swap_left, swap_between, swap_below, RowWritten, ColumnWritten, RowsEliminated, subtracted};
ghost use Rattle.methods.specs.Progress.{one_if, stores};
ghost use Rattle.methods.specs.Result.{identity};

use arithmetic::double::{abs, finite};
use arithmetic::sqrt::sqrt_flagged;
use matrix::entries::{cell, get, put};
use matrix::utils;
use matrix::utils::Found;
use methods::progress::{Stores, one_if};

// ---- folds

#[tactic(auto, unfolding(methods::specs::Statements::larger_magnitude))]
pub fn larger_magnitude(acc: f64, x: f64) -> f64
    ensures { result ≡ larger_magnitude acc x }
{
    let a = abs(x);
    if a > acc { a } else { acc }
}

pub fn diagonal_max(m: &[f64], n: usize) -> f64
    requires { Square n m.now }
    ensures { result ≡ diagonal_max n m.now }
{
    let mut acc = 0.0;
    for i in 0..n {
        acc = larger_magnitude(acc, get(m, n, i, i));
    }
    acc
}

// ---- the pivot search

// 0 where the contract has none.
pub fn number_at(numbers: &[u32], p: &[usize], t: usize) -> u32
    requires { t < length p.now }
    ensures { result ≡ number_at numbers.now p.now t }
{
    numbers.get(p[t]).copied().unwrap_or(0)
}

// i where it is tied and its number is smaller than that of the best so far, else the best. Candidates count from j.
pub fn look_number(
    numbers: &[u32],
    p: &[usize],
    j: usize,
    tied: bool,
    i: usize,
    best: usize,
) -> usize
    requires { (j + i < length p.now) × (j + best < length p.now) }
    ensures { result ≡ cond (tied && ltb (number_at numbers.now p.now (j + i)) (number_at numbers.now p.now (j + best))) i best }
{
    if tied && number_at(numbers, p, j + i) < number_at(numbers, p, j + best) {
        i
    } else {
        best
    }
}

// Of the candidates tied with the first of the largest, the one with the smallest number. Candidate i stands at position j + i.
fn smallest_number(
    numbers: &[u32],
    p: &[usize],
    j: usize,
    magnitude: bool,
    c: &[f64],
    first: usize,
) -> usize
    requires { (first < length c.now) × (j + length c.now ≤ length p.now) }
    ensures { result ≡ smallest_number (λ i. number_at numbers.now p.now (j + i)) magnitude c.now first }
{
    let largest = utils::key(magnitude, c[first]);
    let mut best = first;
    for (i, x) in c.iter().enumerate() {
        let tied = largest == utils::key(magnitude, *x);
        best = look_number(numbers, p, j, tied, i, best);
    }
    best
}

// The pivot among the values from j on, counted from j, and whether its search was tied.
pub fn pick(numbers: &[u32], p: &[usize], magnitude: bool, values: &[f64], j: usize) -> Found
    requires { (j < length values.now) × (length p.now ≡ length values.now) }
    ensures { result ≡ pick numbers.now p.now magnitude values.now j }
{
    let found = utils::largest(magnitude, &values[j..]);
    if numbers.is_empty() {
        return found;
    }
    Found {
        index: smallest_number(numbers, p, j, magnitude, &values[j..], found.index),
        ..found
    }
}

// .. of the diagonal, which is copied from j on

fn copy_diagonal(m: &[f64], n: usize, j: usize, diag: &mut [f64])
    requires square { Square n m.now }
    requires j_le_n { (j ≤ n) × (length diag.old ≡ n) }
    ensures { (i : ℕ) → j ≤ i → i < n → get_or diag.new i nan ≡ at n m.now i i }
{
    // i is a row's number too.
    for i in j..n {
        diag[i] = get(m, n, i, i);
    }
}

pub fn search_diagonal(
    numbers: &[u32],
    p: &[usize],
    magnitude: bool,
    m: &[f64],
    n: usize,
    j: usize,
    diag: &mut [f64],
) -> Found
    requires square { Square n m.now }
    requires j_lt_n { (j < n) × (length diag.old ≡ n) × (length p.now ≡ n) }
    ensures { result ≡ pick numbers.now p.now magnitude (diagonal n m.now) j }
{
    copy_diagonal(m, n, j, diag);
    pick(numbers, p, magnitude, diag, j)
}

// ---- pivots: nothing where max_idx is 0

#[tactic(auto, unfolding(methods::specs::Statements::pivot_matrix))]
pub fn pivot_matrix(m: &mut [f64], n: usize, j: usize, max_idx: usize)
    requires square { Square n m.old }
    requires max_idx_bound { j + max_idx < n }
    ensures { m.new ≡ pivot_matrix n j max_idx m.old }
{
    if max_idx != 0 {
        let q = j + max_idx;
        utils::swap_rows_unchecked(m, n, j, q);
        utils::swap_columns_unchecked(m, n, j, q);
    }
}

// In a list, whatever d a read past its end would give.
#[tactic(auto, unfolding(methods::specs::Statements::pivot_list))]
pub fn pivot_list<T>(xs: &mut [T], j: usize, max_idx: usize)
    requires { j + max_idx < length xs.old }
    ensures { (d : T) → xs.new ≡ pivot_list d j max_idx xs.old }
{
    if max_idx != 0 {
        xs.swap(j, j + max_idx);
    }
}

// ---- symmetric matrices: they are held on and below the diagonal, and what stands above it may be old

// Rows j and q before column j.
fn swap_left(l: &mut [f64], n: usize, j: usize, q: usize)
    requires square { Square n l.old }
    requires j_lt_q { (j < q) × (q < n) }
    ensures { l.new ≡ swap_left n j q l.old }
{
    for k in 0..j {
        utils::swap(l, cell(n, j, k), cell(n, q, k));
    }
}

// Column j and row q between them.
fn swap_between(l: &mut [f64], n: usize, j: usize, q: usize)
    requires square { Square n l.old }
    requires j_lt_q { (j < q) × (q < n) }
    ensures { l.new ≡ swap_between n j q l.old }
{
    for k in j + 1..q {
        utils::swap(l, cell(n, k, j), cell(n, q, k));
    }
}

// Columns j and q below row q.
fn swap_below(l: &mut [f64], n: usize, j: usize, q: usize)
    requires square { Square n l.old }
    requires j_lt_q { (j < q) × (q < n) }
    ensures { l.new ≡ swap_below n j q l.old }
{
    for k in q + 1..n {
        utils::swap(l, cell(n, k, j), cell(n, k, q));
    }
}

// Rows and columns j and q change places, on and below the diagonal.
pub fn pivot_symmetric(l: &mut [f64], n: usize, j: usize, max_idx: usize)
    requires square { Square n l.old }
    requires max_idx_bound { j + max_idx < n }
    ensures { mirrored n l.new ≡ pivot_matrix n j max_idx (mirrored n l.old) }
{
    if max_idx != 0 {
        let q = j + max_idx;
        swap_left(l, n, j, q);
        utils::swap(l, cell(n, j, j), cell(n, q, q));
        swap_between(l, n, j, q);
        swap_below(l, n, j, q);
    }
}

// ---- the jth iteration of the factorization in SE90 and SE99

// Divides column j after j by r; column gets the quotients.
fn divide_column(l: &mut [f64], n: usize, j: usize, r: f64, column: &mut [f64]) -> bool
    requires square { Square n l.old }
    requires j_lt_n { (j < n) × (n ≤ length column.old) }
    ensures { ColumnWritten n j (j + 1) (λ x. at n l.old x j ⊘ r) l.old n l.new result × ((x : ℕ) → j + 1 ≤ x → x < n → get_or column.new x nan ≡ at n l.old x j ⊘ r) }
{
    let mut ok = true;
    // i is a row's number too.
    for i in j + 1..n {
        let ij = cell(n, i, j);
        let v = l[ij] / r;
        l[ij] = v;
        column[i] = v;
        ok &= finite(v);
    }
    ok
}

// Row i, from j + 1 to the diagonal, less column[i] times the column.
fn subtract_multiple(l: &mut [f64], n: usize, j: usize, i: usize, column: &[f64]) -> bool
    requires square { Square n l.old }
    requires j_lt_i { (j < i) × (i < n) × (n ≤ length column.now) }
    ensures { RowWritten n i (j + 1) (subtracted n l.old column.now i) l.old (i + 1) l.new result }
{
    let mut ok = true;
    let x = column[i];
    // k is a column's number too.
    for k in j + 1..i + 1 {
        let ik = cell(n, i, k);
        let v = l[ik] - x * column[k];
        l[ik] = v;
        ok &= finite(v);
    }
    ok
}

// The rows after j, column being what stands in column j.
fn eliminate_rows(l: &mut [f64], n: usize, j: usize, column: &[f64]) -> bool
    requires square { Square n l.old }
    requires j_lt_n { (j < n) × (n ≤ length column.now) }
    ensures { RowsEliminated n j column.now l.old n l.new result }
{
    let mut ok = true;
    for i in j + 1..n {
        ok &= subtract_multiple(l, n, j, i, column);
    }
    ok
}

// The whole iteration; whether rows and columns j to n - 1 are finite then, and whether its root is inexact.
pub fn eliminate(l: &mut [f64], n: usize, j: usize) -> Stores
    requires square { Square n l.old }
    requires j_lt_n { j < n }
    ensures l_after { mirrored n l.new ≡ eliminate n j (mirrored n l.old) }
    ensures value { result ≡ stores (block_finite n j (mirrored n l.new)) (one_if (inexact (at n (mirrored n l.old) j j))) }
{
    let root = sqrt_flagged(get(l, n, j, j));
    put(l, n, j, j, root.value);
    let mut column = [0.0; 48];
    let divided = divide_column(l, n, j, root.value, &mut column);
    let rows = eliminate_rows(l, n, j, &column);
    Stores {
        ok: finite(root.value) & divided & rows,
        inexact: one_if(root.inexact),
    }
}

// ---- at the end

fn clear_after(l: &mut [f64], n: usize, i: usize)
    requires square { Square n l.old }
    requires i_lt_n { i < n }
    ensures { l.new ≡ clear_after n i l.old }
{
    for k in i + 1..n {
        put(l, n, i, k, 0.0);
    }
}

// The strict upper part becomes +0.0.
pub fn lower_triangle(l: &mut [f64], n: usize)
    requires square { Square n l.old }
    requires n_nonzero { 0 < n }
    ensures { l.new ≡ lower_triangle n l.old }
{
    for i in 0..n - 1 {
        clear_after(l, n, i);
    }
}

// By elements: with the library's copy_from_slice an archive for C needs memmove from outside.
pub fn copy(from: &[f64], to: &mut [f64])
    requires { length from.now ≡ length to.old }
    ensures { to.new ≡ from.now }
{
    for (i, x) in to.iter_mut().enumerate() {
        *x = from[i];
    }
}

// The amounts in the order of the original rows; ec is scratch.
pub fn reorder(p: &[usize], e: &mut [f64], ec: &mut [f64], n: usize)
    requires p_len { (length p.now ≡ n) × (length ec.old ≡ n) × (length e.old ≡ n) }
    requires all_below { AllBelow n p.now }
    ensures { e.new ≡ reorder n p.now e.old }
{
    copy(e, ec);
    for (i, row) in p.iter().enumerate() {
        e[*row] = ec[i];
    }
}

// 0 to n - 1.
pub fn count_up(p: &mut [usize])
    ensures { p.new ≡ identity (length p.old) }
{
    for (i, x) in p.iter_mut().enumerate() {
        *x = i;
    }
}
