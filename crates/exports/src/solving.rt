// Solving with a factorization's L and p.
ghost use Rattle.std.specs.Prelude.{◌≡◌};
ghost use Rattle.solve.specs.Substitution.{solve_call};
ghost use Rattle.byte_solve.specs.Solve.{solve_bytes_call};
ghost use Rattle.exports.specs.Exports.{solve_bytes_export, solve_doubles_export};

use crate::status::Status;
use solve::substitution::solve;

#[unsafe(no_mangle)]
pub extern "C" fn millracer_solve_bytes(
    l: &[u8],
    n: usize,
    p: &[u8],
    b: &[u8],
    y: &mut [u8],
) -> Status
    ensures { record { refusal = result; y = y.new } ≡ solve_bytes_export (solve_bytes_call n l.now p.now b.now y.old) }
{
    Status::from(byte_solve::solve(l, n, p, b, y))
}

// The same on slices of doubles, for callers that have them.
#[unsafe(no_mangle)]
pub extern "C" fn millracer_solve_doubles(
    l: &[f64],
    n: usize,
    p: &[usize],
    b: &[f64],
    y: &mut [f64],
) -> Status
    ensures { record { refusal = result; y = y.new } ≡ solve_doubles_export (solve_call n l.now p.now b.now y.old) }
{
    Status::from(solve(l, n, p, b, y))
}
