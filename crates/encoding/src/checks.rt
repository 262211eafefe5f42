// The checks made on bytes, in the order of their refusals' numbers: eight bytes for each double, four for each contract number.
// That doubles are finite is checked by crates/matrix, on `DoubleBytes`; the checks here are of lengths in bytes, and of indices and contract
// numbers, which are no lists of doubles.
ghost use Rattle.std.specs.Prelude.{◌≡◌, ◌*◌, ◌/◌, ◌<◌, length};
ghost use Rattle.std.specs.Float.{binary64};
ghost use Rattle.std.specs.Float.Ieee.{of_bits};
ghost use Rattle.std.specs.Float.Ieee.Scale.{finite};
ghost use Rattle.matrix.specs.Checks.{check_buffer, check_indices, check_distinct, check_list, first_same};
ghost use Rattle.encoding.specs.Bytes.{numbers};
ghost use Rattle.encoding.specs.Checks.{check_whole, check_entries, check_number_bytes, number_byte_checks};

use crate::read::read_contract_number;
use arithmetic::refusal::{Refusal, refuse};
use matrix::checks;

// 4: a whole number of doubles.
pub fn check_whole(len: usize) -> Result<(), Refusal>
    ensures { result ≡ check_whole len }
{
    refuse(len % 8 != 0, Refusal::MatrixLength)
}

// 4: n rows of n doubles.
pub fn check_entries(n: usize, len: usize) -> Result<(), Refusal>
    ensures { result ≡ check_entries n len }
{
    refuse(len % 8 != 0, Refusal::MatrixLength)?;
    checks::check_matrix(n, len / 8)
}

// 5: a buffer for n doubles.
pub fn check_list_buffer(n: usize, len: usize) -> Result<(), Refusal>
    ensures { result ≡ check_buffer (8 * n) len }
{
    refuse(len % 8 != 0, Refusal::BufferLength)?;
    checks::check_buffer(n, len / 8)
}

// 5: a buffer for n rows of n doubles.
pub fn check_matrix_buffer(n: usize, len: usize) -> Result<(), Refusal>
    ensures { result ≡ check_buffer (8 * (n * n)) len }
{
    refuse(len % 8 != 0, Refusal::BufferLength)?;
    checks::check_square_buffer(n, len / 8)
}

// 6: one byte for each index.
pub fn check_indices(n: usize, idxs: &[u8]) -> Result<(), Refusal>
    ensures { result ≡ check_indices n idxs.now }
{
    match idxs.iter().position(|index| n <= usize::from(*index)) {
        Some(position) => Err(Refusal::IndexOutOfRange { position }),
        None => Ok(()),
    }
}

// The exponent's field isn't all ones.
pub fn finite_pattern(v: u64) -> bool
    ensures { result ≡ finite (of_bits binary64 v) }
{
    v % 0x8000_0000_0000_0000 / 0x10_0000_0000_0000 != 2047
}

// 12: n contract numbers.
pub fn check_number_bytes(n: usize, len: usize) -> Result<(), Refusal>
    ensures { result ≡ check_number_bytes n len }
{
    refuse(len % 4 != 0, Refusal::NumbersLength)?;
    checks::check_numbers(n, len / 4)
}

// The first position before k with the number at k, or k, as its definition answers.
fn first_same(b: &[u8], k: usize) -> usize
    requires { k < length b.now / 4 }
    ensures { result ≡ first_same (numbers b.now) k }
{
    let number = read_contract_number(b, 4 * k);
    (0..k)
        .position(|i| read_contract_number(b, 4 * i) == number)
        .unwrap_or(k)
}

// 13: by position among the numbers.
pub fn check_distinct(b: &[u8]) -> Result<(), Refusal>
    ensures { result ≡ check_distinct (numbers b.now) }
{
    let count = b.len() / 4;
    for k in 0..count {
        if first_same(b, k) < k {
            return Err(Refusal::NumberRepeated { position: k });
        }
    }
    Ok(())
}

// 12, then 13. Numbers of a wrong length aren't read, however many there are.
pub fn number_byte_checks(n: usize, b: &[u8]) -> Result<(), Refusal>
    ensures { result ≡ number_byte_checks n b.now }
{
    check_number_bytes(n, b.len())?;
    check_distinct(b)
}

// 14: n doubles.
pub fn check_double_list(n: usize, len: usize) -> Result<(), Refusal>
    ensures { result ≡ check_list (8 * n) len }
{
    refuse(len % 8 != 0, Refusal::ListLength)?;
    checks::check_list(n, len / 8)
}
