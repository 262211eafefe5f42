// The Gershgorin circles of a matrix in bytes.
ghost use Rattle.std.specs.Prelude.{◌≡◌, true, ◌*◌, length};
ghost use Rattle.arithmetic.specs.Outcome.{complete};
ghost use Rattle.byte_helpers.specs.Helpers.{circles_bytes_call, circle_byte_checks, gershgorin_circles_bytes_call};

use arithmetic::refusal::Refusal;
use circles::gershgorin::gershgorin_circles_unchecked as circles_of_doubles;
use encoding::checks::{check_entries, check_list_buffer};
use encoding::double_bytes::DoubleBytes;
use encoding::read::read_doubles;
use encoding::write::write_doubles;
use matrix::checks::{check_finite, check_size};
use matrix::entries::clear;

// The matrix is read into a, and its circles worked out in c and r.
fn write_circles(
    mat: &[u8],
    n: usize,
    centres: &mut [u8],
    radii: &mut [u8],
    a: &mut [f64],
    c: &mut [f64],
    r: &mut [f64],
) -> Result<(), Refusal>
    requires radii_value { complete (circle_byte_checks n mat.now (length centres.old) (length radii.old)) ≡ true }
    requires a_len { (length a.old ≡ n * n) × (length c.old ≡ n) × (length r.old ≡ n) }
    ensures { circles_bytes_call result centres.new radii.new ≡ gershgorin_circles_bytes_call n mat.now centres.old radii.old }
{
    read_doubles(mat, a);
    clear(c);
    clear(r);
    let outcome = circles_of_doubles(a, n, c, r);
    write_doubles(centres, 0, c);
    write_doubles(radii, 0, r);
    outcome
}

fn gershgorin_circles_unchecked(
    mat: &[u8],
    n: usize,
    centres: &mut [u8],
    radii: &mut [u8],
) -> Result<(), Refusal>
    requires { complete (circle_byte_checks n mat.now (length centres.old) (length radii.old)) ≡ true }
    ensures { circles_bytes_call result centres.new radii.new ≡ gershgorin_circles_bytes_call n mat.now centres.old radii.old }
{
    let mut a = [0.0; 2304];
    let mut c = [0.0; 48];
    let mut r = [0.0; 48];
    let m = n * n;
    write_circles(
        mat,
        n,
        centres,
        radii,
        &mut a[0..m],
        &mut c[0..n],
        &mut r[0..n],
    )
}

fn circle_byte_checks(mat: &[u8], n: usize, centres: usize, radii: usize) -> Result<(), Refusal>
    ensures { result ≡ circle_byte_checks n mat.now centres radii }
{
    check_size(n)?;
    check_entries(n, mat.len())?;
    check_list_buffer(n, centres)?;
    check_list_buffer(n, radii)?;
    check_finite(n, DoubleBytes { bytes: mat })
}

pub fn gershgorin_circles(
    mat: &[u8],
    n: usize,
    centres: &mut [u8],
    radii: &mut [u8],
) -> Result<(), Refusal>
    ensures { circles_bytes_call result centres.new radii.new ≡ gershgorin_circles_bytes_call n mat.now centres.old radii.old }
{
    circle_byte_checks(mat, n, centres.len(), radii.len())?;
    gershgorin_circles_unchecked(mat, n, centres, radii)
}
