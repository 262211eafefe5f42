// The checks that solving alone makes. Each answers Ok or its refusal.
ghost use Rattle.std.specs.Prelude.{◌≡◌, ◌+◌, ◌*◌, ◌<◌, length, slice_range};
ghost use Rattle.std.specs.Float.Ieee.Scale.{finite};
ghost use Rattle.arithmetic.specs.All.{all};
ghost use Rattle.matrix.specs.Checks.{came_before};
ghost use Rattle.matrix.specs.Matrix.{at, Square};
ghost use Rattle.solve.specs.Checks.{check_order, check_lower, check_divisors, first_in_row};

use arithmetic::refusal::Refusal;
use matrix::checks::list_finite;
use matrix::doubles::Doubles;
use matrix::entries::{cell, get};

// Whether the index at k came before. Without an early end, so that the machine can test several at once.
fn came_before(p: &[usize], k: usize) -> bool
    requires { k < length p.now }
    ensures { result ≡ came_before p.now k }
{
    let index = p[k];
    let mut before = false;
    for x in &p[..k] {
        if *x == index {
            before = true;
        }
    }
    before
}

// 6: an index that isn't below n or came before.
pub fn check_order(n: usize, p: &[usize]) -> Result<(), Refusal>
    ensures { result ≡ check_order n p.now }
{
    for (k, index) in p.iter().enumerate() {
        if n <= *index || came_before(p, k) {
            return Err(Refusal::IndexOutOfRange { position: k });
        }
    }
    Ok(())
}

// Row i up to the diagonal.
fn lower_row(l: &[f64], n: usize, i: usize) -> &[f64]
    requires square { Square n l.now }
    requires i_lt_n { i < n }
    ensures { result.now ≡ slice_range l.now (i * n) (i * n + i + 1) }
{
    &l[cell(n, i, 0)..cell(n, i, i) + 1]
}

// The first column of row i, up to the diagonal, whose entry isn't finite, or i + 1, as its definition answers.
fn first_in_row(l: &[f64], n: usize, i: usize) -> usize
    requires square { Square n l.now }
    requires i_lt_n { i < n }
    ensures { result ≡ first_in_row n l.now i }
{
    lower_row(l, n, i).first_not_finite()
}

// Whether row i is finite up to the diagonal. Without an early end either.
fn row_finite(l: &[f64], n: usize, i: usize) -> bool
    requires square { Square n l.now }
    requires i_lt_n { i < n }
    ensures { result ≡ all 0 (i + 1) (λ j. finite (at n l.now i j)) }
{
    list_finite(lower_row(l, n, i), 0)
}

// 7, of the lower part.
pub fn check_lower(n: usize, l: &[f64]) -> Result<(), Refusal>
    requires { Square n l.now }
    ensures { result ≡ check_lower n l.now }
{
    for i in 0..n {
        if !row_finite(l, n, i) {
            return Err(Refusal::NotFinite {
                row: i,
                column: first_in_row(l, n, i),
            });
        }
    }
    Ok(())
}

// 15: a zero on the diagonal, of either sign.
pub fn check_divisors(n: usize, l: &[f64]) -> Result<(), Refusal>
    requires { Square n l.now }
    ensures { result ≡ check_divisors n l.now }
{
    for i in 0..n {
        if get(l, n, i, i) == 0.0 {
            return Err(Refusal::ZeroDiagonal { row: i });
        }
    }
    Ok(())
}
