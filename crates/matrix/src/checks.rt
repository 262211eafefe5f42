// The checks that calls share, in the order of their refusals' numbers. Each answers Ok or its refusal.
ghost use Rattle.std.specs.Prelude.{◌≡◌, ◌+◌, ◌*◌, ◌/◌, ◌%◌, ◌<◌, ◌≤◌, length, get_or, eqb};
ghost use Rattle.std.specs.Float.{nan};
ghost use Rattle.std.specs.Float.Ieee.Scale.{finite};
ghost use Rattle.arithmetic.specs.All.{all};
ghost use Rattle.matrix.specs.Matrix.{Square};
ghost use Rattle.matrix.specs.Checks.{check_size, check_some, check_matrix, check_buffer, check_index, check_indices, check_finite, check_symmetric, check_numbers, check_distinct, check_list, first_mismatch, first_same, AllFinite};

use crate::doubles::Doubles;
use crate::entries::get;
use arithmetic::double::finite;
use arithmetic::refusal::{Refusal, refuse};

pub fn check_size(n: usize) -> Result<(), Refusal>
    ensures { result ≡ check_size n }
{
    refuse(n == 0 || 48 < n, Refusal::SizeOutOfRange)
}

pub fn check_some(len: usize) -> Result<(), Refusal>
    ensures { result ≡ check_some len }
{
    refuse(len == 0, Refusal::SizeOutOfRange)
}

// Whether len is n * n; where the product has no room, no length is as large.
fn is_square(n: usize, len: usize) -> bool
    ensures { result ≡ eqb len (n * n) }
{
    n < 0x1_0000_0000 && len == n * n
}

pub fn check_matrix(n: usize, len: usize) -> Result<(), Refusal>
    ensures { result ≡ check_matrix n len }
{
    refuse(!is_square(n, len), Refusal::MatrixLength)
}

pub fn check_buffer(wanted: usize, len: usize) -> Result<(), Refusal>
    ensures { result ≡ check_buffer wanted len }
{
    refuse(len != wanted, Refusal::BufferLength)
}

// A buffer for n rows of n.
pub fn check_square_buffer(n: usize, len: usize) -> Result<(), Refusal>
    ensures { result ≡ check_buffer (n * n) len }
{
    refuse(!is_square(n, len), Refusal::BufferLength)
}

pub fn check_index(n: usize, position: usize, index: usize) -> Result<(), Refusal>
    ensures { result ≡ check_index n position index }
{
    refuse(n <= index, Refusal::IndexOutOfRange { position })
}

pub fn check_indices(n: usize, idxs: &[usize]) -> Result<(), Refusal>
    ensures { result ≡ check_indices n idxs.now }
{
    match idxs.iter().position(|index| n <= *index) {
        Some(position) => Err(Refusal::IndexOutOfRange { position }),
        None => Ok(()),
    }
}

// Whether the entries from a on are finite. Without an early end, so that the machine can test several at once.
pub fn list_finite(l: &[f64], a: usize) -> bool
    requires { a ≤ length l.now }
    ensures { result ≡ all a (length l.now) (λ i. finite (get_or l.now i nan)) }
{
    let mut ok = true;
    for x in &l[a..] {
        if !finite(*x) {
            ok = false;
        }
    }
    ok
}

// Position k in rows of n; rows of 0 are one row without an end.
pub fn not_finite_at(n: usize, k: usize) -> Refusal
    ensures { result ≡ Refusal.NotFinite (k / n) (k % n) }
{
    if n == 0 {
        return Refusal::NotFinite { row: 0, column: k };
    }
    Refusal::NotFinite {
        row: k / n,
        column: k % n,
    }
}

pub fn check_finite<L: Doubles>(n: usize, m: L) -> Result<(), Refusal>
    ensures { result ≡ check_finite n (L.doubles m) }
{
    let k = m.first_not_finite();
    if k < m.count() {
        return Err(not_finite_at(n, k));
    }
    Ok(())
}

// The first column after i at which row i has other bits than column i, or n, as its definition answers.
fn first_mismatch(m: &[f64], n: usize, i: usize) -> usize
    requires square { Square n m.now }
    requires all_finite { AllFinite n m.now }
    requires i_lt_n { i < n }
    ensures { result ≡ first_mismatch n m.now i }
{
    for j in i + 1..n {
        if f64::to_bits(get(m, n, i, j)) != f64::to_bits(get(m, n, j, i)) {
            return j;
        }
    }
    n
}

pub fn check_symmetric(n: usize, m: &[f64]) -> Result<(), Refusal>
    requires square { Square n m.now }
    requires all_finite { AllFinite n m.now }
    ensures { result ≡ check_symmetric n m.now }
{
    for i in 0..n {
        let j = first_mismatch(m, n, i);
        if j < n {
            return Err(Refusal::Unsymmetric { row: i, column: j });
        }
    }
    Ok(())
}

// A number for each of n contracts.
pub fn check_numbers(n: usize, len: usize) -> Result<(), Refusal>
    ensures { result ≡ check_numbers n len }
{
    refuse(len != n, Refusal::NumbersLength)
}

// The first position before k with the number at k, or k, as its definition answers.
fn first_same(numbers: &[u32], k: usize) -> usize
    requires { k < length numbers.now }
    ensures { result ≡ first_same numbers.now k }
{
    let number = numbers[k];
    numbers[..k].iter().position(|x| *x == number).unwrap_or(k)
}

pub fn check_distinct(numbers: &[u32]) -> Result<(), Refusal>
    ensures { result ≡ check_distinct numbers.now }
{
    let len = numbers.len();
    for k in 0..len {
        let i = first_same(numbers, k);
        if i < k {
            return Err(Refusal::NumberRepeated { position: k });
        }
    }
    Ok(())
}

// A list of as many as wanted.
pub fn check_list(wanted: usize, len: usize) -> Result<(), Refusal>
    ensures { result ≡ check_list wanted len }
{
    refuse(len != wanted, Refusal::ListLength)
}
