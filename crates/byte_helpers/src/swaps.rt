// Swaps of rows and columns: bytes move, whatever doubles they are, so these aren't the swaps of crates/matrix.
ghost use Rattle.std.specs.Prelude.{◌≡◌, [], ◌*◌, ◌<◌, ◌≤◌, length};
ghost use Rattle.matrix.specs.Swap.{swap};
ghost use Rattle.encoding.specs.Elements.{elements, joined};
ghost use Rattle.byte_helpers.specs.Helpers.{swap_byte_checks, swap_rows_bytes, swap_columns_bytes, swap_rows_bytes_call, swap_columns_bytes_call};

use arithmetic::refusal::Refusal;
use encoding::checks::check_entries;
use encoding::read::read_number;
use encoding::write::write_number;
use matrix::checks;
use matrix::entries::cell;

// Elements x and y of count, eight bytes each.
fn swap_elements(mat: &mut [u8], count: usize, x: usize, y: usize)
    requires { (length mat.old ≡ 8 * count) × (x < count) × (y < count) }
    ensures { mat.new ≡ joined (swap [] (elements mat.old) x y) }
{
    let first = read_number(mat, 8 * x);
    let second = read_number(mat, 8 * y);
    write_number(mat, 8 * x, second);
    write_number(mat, 8 * y, first);
}

fn swap_rows_unchecked(mat: &mut [u8], n: usize, idx1: usize, idx2: usize)
    requires { (length mat.old ≡ 8 * (n * n)) × (n ≤ 48) × (idx1 < n) × (idx2 < n) }
    ensures { mat.new ≡ swap_rows_bytes n mat.old idx1 idx2 }
{
    for i in 0..n {
        swap_elements(mat, n * n, cell(n, idx1, i), cell(n, idx2, i));
    }
}

fn swap_columns_unchecked(mat: &mut [u8], n: usize, idx1: usize, idx2: usize)
    requires { (length mat.old ≡ 8 * (n * n)) × (n ≤ 48) × (idx1 < n) × (idx2 < n) }
    ensures { mat.new ≡ swap_columns_bytes n mat.old idx1 idx2 }
{
    for i in 0..n {
        swap_elements(mat, n * n, cell(n, i, idx1), cell(n, i, idx2));
    }
}

fn swap_byte_checks(n: usize, len: usize, idx1: usize, idx2: usize) -> Result<(), Refusal>
    ensures { result ≡ swap_byte_checks n len idx1 idx2 }
{
    checks::check_size(n)?;
    check_entries(n, len)?;
    checks::check_index(n, 0, idx1)?;
    checks::check_index(n, 1, idx2)
}

pub fn swap_rows(mat: &mut [u8], n: usize, idx1: usize, idx2: usize) -> Result<(), Refusal>
    ensures { record { outcome = result; mat = mat.new } ≡ swap_rows_bytes_call n mat.old idx1 idx2 }
{
    swap_byte_checks(n, mat.len(), idx1, idx2)?;
    swap_rows_unchecked(mat, n, idx1, idx2);
    Ok(())
}

pub fn swap_columns(mat: &mut [u8], n: usize, idx1: usize, idx2: usize) -> Result<(), Refusal>
    ensures { record { outcome = result; mat = mat.new } ≡ swap_columns_bytes_call n mat.old idx1 idx2 }
{
    swap_byte_checks(n, mat.len(), idx1, idx2)?;
    swap_columns_unchecked(mat, n, idx1, idx2);
    Ok(())
}
