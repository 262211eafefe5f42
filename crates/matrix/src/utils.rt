// src/utils.rs: swaps, searches, eigenvalues, permutation and diagonal matrices.
ghost use Rattle.std.specs.Prelude.{◌≡◌, Bool, true, ℕ, ◌<◌, length};
ghost use Rattle.std.specs.Float.{nan};
ghost use Rattle.matrix.specs.Matrix.{Square};
ghost use Rattle.matrix.specs.Swap.{swap, swap_rows, swap_columns};
ghost use Rattle.matrix.specs.Search.{key, better, best_of, count_equal, largest};
ghost use Rattle.matrix.specs.Eigenvalues.{ordered, eigenvalues_2x2};
ghost use Rattle.matrix.specs.Plain.{AllBelow, index_to_permutation_mat, diag_mat_from_arr};
ghost use Rattle.matrix.specs.Calls.{swap_checks, swap_rows_call, swap_columns_call, search_checks, search_call, check_eigen, eigen_checks, eigenvalues_2x2_call, permutation_checks, index_to_permutation_mat_call, diagonal_checks, diag_mat_from_arr_call};

use crate::checks;
use crate::doubles::Doubles;
use crate::entries::{cell, clear, put};
use arithmetic::double::{abs, finite};
use arithmetic::refusal::{Refusal, refuse};
use arithmetic::sqrt::sqrt_unchecked;

// ---- swaps

pub fn swap(l: &mut [f64], x: usize, y: usize)
    requires { (x < length l.old) × (y < length l.old) }
    ensures { l.new ≡ swap nan l.old x y }
{
    l.swap(x, y);
}

pub fn swap_rows_unchecked(mat: &mut [f64], n: usize, idx1: usize, idx2: usize)
    requires square { Square n mat.old }
    requires idx1_lt_n { (idx1 < n) × (idx2 < n) }
    ensures { mat.new ≡ swap_rows nan n mat.old idx1 idx2 }
{
    for i in 0..n {
        swap(mat, cell(n, idx1, i), cell(n, idx2, i));
    }
}

pub fn swap_columns_unchecked(mat: &mut [f64], n: usize, idx1: usize, idx2: usize)
    requires square { Square n mat.old }
    requires idx1_lt_n { (idx1 < n) × (idx2 < n) }
    ensures { mat.new ≡ swap_columns nan n mat.old idx1 idx2 }
{
    for i in 0..n {
        swap(mat, cell(n, i, idx1), cell(n, i, idx2));
    }
}

fn swap_checks(n: usize, len: usize, idx1: usize, idx2: usize) -> Result<(), Refusal>
    ensures { result ≡ swap_checks n len idx1 idx2 }
{
    checks::check_size(n)?;
    checks::check_matrix(n, len)?;
    checks::check_index(n, 0, idx1)?;
    checks::check_index(n, 1, idx2)
}

pub fn swap_rows(mat: &mut [f64], n: usize, idx1: usize, idx2: usize) -> Result<(), Refusal>
    ensures { record { outcome = result; mat = mat.new } ≡ swap_rows_call n mat.old idx1 idx2 }
{
    swap_checks(n, mat.len(), idx1, idx2)?;
    swap_rows_unchecked(mat, n, idx1, idx2);
    Ok(())
}

pub fn swap_columns(mat: &mut [f64], n: usize, idx1: usize, idx2: usize) -> Result<(), Refusal>
    ensures { record { outcome = result; mat = mat.new } ≡ swap_columns_call n mat.old idx1 idx2 }
{
    swap_checks(n, mat.len(), idx1, idx2)?;
    swap_columns_unchecked(mat, n, idx1, idx2);
    Ok(())
}

// ---- searches

// The largest so far, and where it was first.
#[derive(Clone, Copy)]
pub struct Best {
    pub max: f64,
    pub index: usize,
}

// Where the largest is first, and whether it stands at two or more candidates.
#[derive(Clone, Copy)]
pub struct Found {
    pub index: usize,
    pub tied: bool,
}

// Two kinds of search, told apart as the definitions and the theorems on them do it.
pub fn key(magnitude: bool, x: f64) -> f64
    ensures { result ≡ key magnitude x }
{
    if magnitude { abs(x) } else { x }
}

pub fn better(s: Best, x: f64, i: usize) -> Best
    ensures { result ≡ better s x i }
{
    if x > s.max {
        Best { max: x, index: i }
    } else {
        s
    }
}

pub fn best_of<L: Doubles>(magnitude: bool, c: L) -> Best
    requires nonzero { 0 < length (L.doubles c) }
    requires by_index { (k : ℕ) → k < length (L.doubles c) → L.can_get c k ≡ true }
    ensures { result ≡ best_of magnitude (L.doubles c) }
{
    let mut s = Best {
        max: key(magnitude, c.get(0)),
        index: 0,
    };
    let n = c.count();
    for i in 0..n {
        s = better(s, key(magnitude, c.get(i)), i);
    }
    s
}

fn count_equal(magnitude: bool, c: &[f64], x: f64) -> usize
    ensures { result ≡ count_equal magnitude c.now x }
{
    let mut count = 0;
    for y in c {
        if x == key(magnitude, *y) {
            count += 1;
        }
    }
    count
}

// The search of every method: by magnitude in GMW81, by value in SE90 and SE99.
pub fn largest(magnitude: bool, c: &[f64]) -> Found
    requires { 0 < length c.now }
    ensures { result ≡ largest magnitude c.now }
{
    let b = best_of(magnitude, c);
    let count = count_equal(magnitude, c, b.max);
    Found {
        index: b.index,
        tied: 1 < count,
    }
}

fn search_checks(c: &[f64]) -> Result<(), Refusal>
    ensures { result ≡ search_checks c.now }
{
    checks::check_some(c.len())?;
    checks::check_finite(1, c)
}

fn search(magnitude: bool, c: &[f64]) -> Result<usize, Refusal>
    ensures { result ≡ search_call magnitude c.now }
{
    search_checks(c)?;
    Ok(largest(magnitude, c).index)
}

pub fn index_of_largest(c: &[f64]) -> Result<usize, Refusal>
    ensures { result ≡ search_call Bool.false c.now }
{
    search(false, c)
}

pub fn index_of_largest_abs(c: &[f64]) -> Result<usize, Refusal>
    ensures { result ≡ search_call Bool.true c.now }
{
    search(true, c)
}

// ---- eigenvalues

// The larger and the smaller eigenvalue.
#[derive(Clone, Copy)]
pub struct Eigen {
    pub hi: f64,
    pub lo: f64,
}

fn ordered(l1: f64, l2: f64) -> Eigen
    ensures { result ≡ ordered l1 l2 }
{
    if l1 > l2 {
        Eigen { hi: l1, lo: l2 }
    } else {
        Eigen { hi: l2, lo: l1 }
    }
}

pub fn eigenvalues_2x2_unchecked(mat: [[f64; 2]; 2]) -> Eigen
    ensures { result ≡ eigenvalues_2x2 mat }
{
    let a = mat[0][0];
    let b = mat[0][1];
    let c = mat[1][0];
    let d = mat[1][1];
    let h = -(a + d) / 2.0;
    let tmp = sqrt_unchecked(h * h - a * d + b * c);
    let l1 = (a + d) / 2.0 + tmp;
    let l2 = (a + d) / 2.0 - tmp;
    ordered(l1, l2)
}

// 9, at step 0.
fn check_eigen(e: Eigen) -> Result<(), Refusal>
    ensures { result ≡ check_eigen e }
{
    refuse(
        !(finite(e.hi) && finite(e.lo)),
        Refusal::StoredNotFinite { step: 0 },
    )
}

fn eigen_checks(mat: [[f64; 2]; 2], e: Eigen) -> Result<(), Refusal>
    ensures { result ≡ eigen_checks mat e }
{
    let entries = [mat[0][0], mat[0][1], mat[1][0], mat[1][1]];
    checks::check_finite(2, &entries[..])?;
    check_eigen(e)
}

pub fn eigenvalues_2x2(mat: [[f64; 2]; 2]) -> Result<Eigen, Refusal>
    ensures { result ≡ eigenvalues_2x2_call mat }
{
    let eigen = eigenvalues_2x2_unchecked(mat);
    eigen_checks(mat, eigen)?;
    Ok(eigen)
}

// ---- permutation and diagonal matrices

pub fn index_to_permutation_mat_unchecked(idxs: &[usize], mat: &mut [f64])
    requires square { Square (length idxs.now) mat.old }
    requires all_below { AllBelow (length idxs.now) idxs.now }
    ensures { mat.new ≡ index_to_permutation_mat idxs.now }
{
    clear(mat);
    let n = idxs.len();
    for (i, idx) in idxs.iter().enumerate() {
        put(mat, n, i, *idx, 1.0);
    }
}

fn permutation_checks(idxs: &[usize], len: usize) -> Result<(), Refusal>
    ensures { result ≡ permutation_checks idxs.now len }
{
    let n = idxs.len();
    checks::check_size(n)?;
    checks::check_square_buffer(n, len)?;
    checks::check_indices(n, idxs)
}

pub fn index_to_permutation_mat(idxs: &[usize], mat: &mut [f64]) -> Result<(), Refusal>
    ensures { record { outcome = result; mat = mat.new } ≡ index_to_permutation_mat_call idxs.now mat.old }
{
    permutation_checks(idxs, mat.len())?;
    index_to_permutation_mat_unchecked(idxs, mat);
    Ok(())
}

pub fn diag_mat_from_arr_unchecked(arr: &[f64], mat: &mut [f64])
    requires { Square (length arr.now) mat.old }
    ensures { mat.new ≡ diag_mat_from_arr arr.now }
{
    clear(mat);
    let n = arr.len();
    for (i, x) in arr.iter().enumerate() {
        put(mat, n, i, i, *x);
    }
}

fn diagonal_checks(arr: &[f64], len: usize) -> Result<(), Refusal>
    ensures { result ≡ diagonal_checks arr.now len }
{
    let n = arr.len();
    checks::check_size(n)?;
    checks::check_square_buffer(n, len)?;
    checks::check_finite(1, arr)
}

pub fn diag_mat_from_arr(arr: &[f64], mat: &mut [f64]) -> Result<(), Refusal>
    ensures { record { outcome = result; mat = mat.new } ≡ diag_mat_from_arr_call arr.now mat.old }
{
    diagonal_checks(arr, mat.len())?;
    diag_mat_from_arr_unchecked(arr, mat);
    Ok(())
}
