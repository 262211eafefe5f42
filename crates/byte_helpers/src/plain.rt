// Permutation and diagonal matrices, written as bytes, without an array of doubles between.
ghost use Rattle.std.specs.Prelude.{◌≡◌, true, ℕ, ◌*◌, ◌<◌, ◌≤◌, length, get_or};
ghost use Rattle.std.specs.Float.{nan};
ghost use Rattle.std.specs.Float.Ieee.Scale.{finite};
ghost use Rattle.matrix.specs.Plain.{AllBelow, index_to_permutation_mat, diag_mat_from_arr};
ghost use Rattle.encoding.specs.Bytes.{doubles, double_bytes};
ghost use Rattle.byte_helpers.specs.Helpers.{permutation_byte_checks, index_to_permutation_mat_bytes_call, diagonal_byte_checks, diag_mat_from_arr_bytes_call};

use arithmetic::refusal::Refusal;
use encoding::checks::{check_indices, check_matrix_buffer, check_whole};
use encoding::double_bytes::DoubleBytes;
use encoding::read::read_number;
use encoding::write::{clear_bytes, write_number};
use matrix::checks::{check_finite, check_size};
use matrix::entries::cell;

// The bits of 1.0.
const ONE: u64 = 0x3ff0_0000_0000_0000;

fn index_to_permutation_mat_unchecked(idxs: &[u8], mat: &mut [u8])
    requires mat_len { (length mat.old ≡ 8 * (length idxs.now * length idxs.now)) × (length idxs.now ≤ 48) }
    requires all_below { AllBelow (length idxs.now) idxs.now }
    ensures { mat.new ≡ double_bytes (index_to_permutation_mat idxs.now) }
{
    clear_bytes(mat);
    let n = idxs.len();
    for (i, index) in idxs.iter().enumerate() {
        write_number(mat, 8 * cell(n, i, usize::from(*index)), ONE);
    }
}

fn permutation_byte_checks(idxs: &[u8], len: usize) -> Result<(), Refusal>
    ensures { result ≡ permutation_byte_checks idxs.now len }
{
    let n = idxs.len();
    check_size(n)?;
    check_matrix_buffer(n, len)?;
    check_indices(n, idxs)
}

pub fn index_to_permutation_mat(idxs: &[u8], mat: &mut [u8]) -> Result<(), Refusal>
    ensures { record { outcome = result; mat = mat.new } ≡ index_to_permutation_mat_bytes_call idxs.now mat.old }
{
    permutation_byte_checks(idxs, mat.len())?;
    index_to_permutation_mat_unchecked(idxs, mat);
    Ok(())
}

fn diag_mat_from_arr_unchecked(arr: &[u8], n: usize, mat: &mut [u8])
    requires arr_len { (length arr.now ≡ 8 * n) × (length mat.old ≡ 8 * (n * n)) × (n ≤ 48) }
    requires by_index { (k : ℕ) → k < n → finite (get_or (doubles arr.now) k nan) ≡ true }
    ensures { mat.new ≡ double_bytes (diag_mat_from_arr (doubles arr.now)) }
{
    clear_bytes(mat);
    for i in 0..n {
        write_number(mat, 8 * cell(n, i, i), read_number(arr, 8 * i));
    }
}

fn diagonal_byte_checks(arr: &[u8], len: usize) -> Result<(), Refusal>
    ensures { result ≡ diagonal_byte_checks arr.now len }
{
    let n = arr.len() / 8;
    check_size(n)?;
    check_whole(arr.len())?;
    check_matrix_buffer(n, len)?;
    check_finite(1, DoubleBytes { bytes: arr })
}

pub fn diag_mat_from_arr(arr: &[u8], mat: &mut [u8]) -> Result<(), Refusal>
    ensures { record { outcome = result; mat = mat.new } ≡ diag_mat_from_arr_bytes_call arr.now mat.old }
{
    diagonal_byte_checks(arr, mat.len())?;
    diag_mat_from_arr_unchecked(arr, arr.len() / 8, mat);
    Ok(())
}
