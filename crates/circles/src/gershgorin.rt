// src/gershgorin.rs: the Gershgorin circles of a matrix.
ghost use Rattle.std.specs.Prelude.{◌≡◌, ◌+◌, ◌<◌, length};
ghost use Rattle.matrix.specs.Matrix.{Square};
ghost use Rattle.circles.specs.Circles.{add_magnitudes, sums, overflows, circles_call, circle_checks, gershgorin_circles, gershgorin_circles_call};

use arithmetic::double::{abs, finite, min};
use arithmetic::refusal::Refusal;
use matrix::checks;
use matrix::entries::{clear, get};

// The sums of magnitudes of a row and of its column, without the diagonal.
#[derive(Clone, Copy)]
pub struct Sums {
    pub ri: f64,
    pub ci: f64,
}

fn add_magnitudes(mat: &[f64], n: usize, i: usize, j: usize, s: Sums) -> Sums
    requires square { Square n mat.now }
    requires i_lt_n { (i < n) × (j < n) }
    ensures { result ≡ add_magnitudes n mat.now i j s }
{
    if i == j {
        return s;
    }
    Sums {
        ri: s.ri + abs(get(mat, n, i, j)),
        ci: s.ci + abs(get(mat, n, j, i)),
    }
}

fn magnitude_sums(mat: &[f64], n: usize, i: usize) -> Sums
    requires square { Square n mat.now }
    requires i_lt_n { i < n }
    ensures { result ≡ sums n mat.now i }
{
    let mut s = Sums { ri: 0.0, ci: 0.0 };
    for j in 0..n {
        s = add_magnitudes(mat, n, i, j, s);
    }
    s
}

// Either sum is infinite.
fn overflows(s: Sums) -> bool
    ensures { result ≡ overflows s }
{
    !finite(s.ri) || !finite(s.ci)
}

pub fn gershgorin_circles_unchecked(
    mat: &[f64],
    n: usize,
    centres: &mut [f64],
    radii: &mut [f64],
) -> Result<(), Refusal>
    requires square { Square n mat.now }
    requires centres_len { (length centres.old ≡ n) × (length radii.old ≡ n) }
    ensures { circles_call result centres.new radii.new ≡ gershgorin_circles n mat.now centres.old radii.old }
{
    // i is a row's number too.
    for i in 0..n {
        let s = magnitude_sums(mat, n, i);
        if overflows(s) {
            clear(centres);
            clear(radii);
            return Err(Refusal::StoredNotFinite { step: i });
        }
        centres[i] = get(mat, n, i, i);
        radii[i] = min(s.ri, s.ci);
    }
    Ok(())
}

fn circle_checks(mat: &[f64], n: usize, centres: usize, radii: usize) -> Result<(), Refusal>
    ensures { result ≡ circle_checks n mat.now centres radii }
{
    checks::check_size(n)?;
    checks::check_matrix(n, mat.len())?;
    checks::check_buffer(n, centres)?;
    checks::check_buffer(n, radii)?;
    checks::check_finite(n, mat)
}

pub fn gershgorin_circles(
    mat: &[f64],
    n: usize,
    centres: &mut [f64],
    radii: &mut [f64],
) -> Result<(), Refusal>
    ensures { circles_call result centres.new radii.new ≡ gershgorin_circles_call n mat.now centres.old radii.old }
{
    circle_checks(mat, n, centres.len(), radii.len())?;
    gershgorin_circles_unchecked(mat, n, centres, radii)
}
