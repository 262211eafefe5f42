// Eigenvalues, searches, swaps, plain matrices and circles, on bytes.
ghost use Rattle.std.specs.Prelude.{◌≡◌, Bool, [], ◌∷◌};
ghost use Rattle.matrix.specs.Calls.{eigenvalues_2x2_call};
ghost use Rattle.byte_helpers.specs.Helpers.{search_bytes_call, swap_rows_bytes_call, swap_columns_bytes_call, index_to_permutation_mat_bytes_call, diag_mat_from_arr_bytes_call, gershgorin_circles_bytes_call};
ghost use Rattle.exports.specs.Exports.{eigenvalues, found, matrix_export, circles_export};

use crate::status::Status;
use arithmetic::refusal::Refusal;
use byte_helpers::gershgorin::gershgorin_circles;
use byte_helpers::plain::{diag_mat_from_arr, index_to_permutation_mat};
use byte_helpers::searches::{index_of_largest, index_of_largest_abs};
use byte_helpers::swaps::{swap_columns, swap_rows};
use matrix::utils::{Eigen, eigenvalues_2x2};

#[repr(C)]
#[derive(Clone, Copy)]
pub struct Eigenvalues {
    pub refusal: Status,
    pub hi: f64,
    pub lo: f64,
}

impl From<Result<Eigen, Refusal>> for Eigenvalues {
    ghost from_gives = { λ answer given. given ≡ eigenvalues answer };

    // Beside a refusal both are +0.0.
    fn from(answer: Result<Eigen, Refusal>) -> Eigenvalues {
        let eigen = answer.unwrap_or(Eigen { hi: 0.0, lo: 0.0 });
        Eigenvalues {
            refusal: Status::from(answer.and(Ok(()))),
            hi: eigen.hi,
            lo: eigen.lo,
        }
    }
}

#[repr(C)]
#[derive(Clone, Copy)]
pub struct FoundIndex {
    pub refusal: Status,
    pub index: usize,
}

impl From<Result<usize, Refusal>> for FoundIndex {
    ghost from_gives = { λ answer given. given ≡ found answer };

    // Beside a refusal the index is 0.
    fn from(answer: Result<usize, Refusal>) -> FoundIndex {
        FoundIndex {
            refusal: Status::from(answer.and(Ok(()))),
            index: answer.unwrap_or(0),
        }
    }
}

// Of the rows (a b) and (c d).
#[unsafe(no_mangle)]
pub extern "C" fn millracer_eigenvalues_2x2(a: f64, b: f64, c: f64, d: f64) -> Eigenvalues
    ensures { result ≡ eigenvalues (eigenvalues_2x2_call ((a ∷ b ∷ []) ∷ (c ∷ d ∷ []) ∷ [])) }
{
    Eigenvalues::from(eigenvalues_2x2([[a, b], [c, d]]))
}

#[unsafe(no_mangle)]
pub extern "C" fn millracer_index_of_largest_bytes(c: &[u8]) -> FoundIndex
    ensures { result ≡ found (search_bytes_call Bool.false c.now) }
{
    FoundIndex::from(index_of_largest(c))
}

#[unsafe(no_mangle)]
pub extern "C" fn millracer_index_of_largest_abs_bytes(c: &[u8]) -> FoundIndex
    ensures { result ≡ found (search_bytes_call Bool.true c.now) }
{
    FoundIndex::from(index_of_largest_abs(c))
}

#[unsafe(no_mangle)]
pub extern "C" fn millracer_swap_rows_bytes(
    mat: &mut [u8],
    n: usize,
    idx1: usize,
    idx2: usize,
) -> Status
    ensures { record { refusal = result; mat = mat.new } ≡ matrix_export (swap_rows_bytes_call n mat.old idx1 idx2) }
{
    Status::from(swap_rows(mat, n, idx1, idx2))
}

#[unsafe(no_mangle)]
pub extern "C" fn millracer_swap_columns_bytes(
    mat: &mut [u8],
    n: usize,
    idx1: usize,
    idx2: usize,
) -> Status
    ensures { record { refusal = result; mat = mat.new } ≡ matrix_export (swap_columns_bytes_call n mat.old idx1 idx2) }
{
    Status::from(swap_columns(mat, n, idx1, idx2))
}

#[unsafe(no_mangle)]
pub extern "C" fn millracer_index_to_permutation_mat_bytes(idxs: &[u8], mat: &mut [u8]) -> Status
    ensures { record { refusal = result; mat = mat.new } ≡ matrix_export (index_to_permutation_mat_bytes_call idxs.now mat.old) }
{
    Status::from(index_to_permutation_mat(idxs, mat))
}

#[unsafe(no_mangle)]
pub extern "C" fn millracer_diag_mat_from_arr_bytes(arr: &[u8], mat: &mut [u8]) -> Status
    ensures { record { refusal = result; mat = mat.new } ≡ matrix_export (diag_mat_from_arr_bytes_call arr.now mat.old) }
{
    Status::from(diag_mat_from_arr(arr, mat))
}

#[unsafe(no_mangle)]
pub extern "C" fn millracer_gershgorin_circles_bytes(
    mat: &[u8],
    n: usize,
    centres: &mut [u8],
    radii: &mut [u8],
) -> Status
    ensures { record { refusal = result; centres = centres.new; radii = radii.new } ≡ circles_export (gershgorin_circles_bytes_call n mat.now centres.old radii.old) }
{
    Status::from(gershgorin_circles(mat, n, centres, radii))
}
