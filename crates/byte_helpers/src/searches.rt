// Searches over bytes: a list may have any length, so no array holds its doubles, and each is read where it stands.
ghost use Rattle.std.specs.Prelude.{◌≡◌, Bool};
ghost use Rattle.byte_helpers.specs.Helpers.{search_byte_checks, search_bytes_call};

use arithmetic::refusal::Refusal;
use encoding::checks::check_whole;
use encoding::double_bytes::DoubleBytes;
use matrix::checks::{check_finite, check_some};
use matrix::utils::best_of;

fn search_byte_checks(c: &[u8]) -> Result<(), Refusal>
    ensures { result ≡ search_byte_checks c.now }
{
    check_some(c.len())?;
    check_whole(c.len())?;
    check_finite(1, DoubleBytes { bytes: c })
}

fn search(magnitude: bool, c: &[u8]) -> Result<usize, Refusal>
    ensures { result ≡ search_bytes_call magnitude c.now }
{
    search_byte_checks(c)?;
    Ok(best_of(magnitude, DoubleBytes { bytes: c }).index)
}

pub fn index_of_largest(c: &[u8]) -> Result<usize, Refusal>
    ensures { result ≡ search_bytes_call Bool.false c.now }
{
    search(false, c)
}

pub fn index_of_largest_abs(c: &[u8]) -> Result<usize, Refusal>
    ensures { result ≡ search_bytes_call Bool.true c.now }
{
    search(true, c)
}
