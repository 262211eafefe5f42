// Solving on bytes: doubles are eight bytes, low byte first, p one byte an index. The checks of L's rows aren't those of crates/solve: of
// what stands above the diagonal, and of bytes that may be no finite double, no double is made.
#![tactic(auto)]

ghost use Rattle.std.specs.Prelude.{◌≡◌, true, ℕ, ◌*◌, ◌<◌, ◌≤◌, length, get_or};
ghost use Rattle.std.specs.Float.{nan, binary64};
ghost use Rattle.std.specs.Float.Ieee.{of_bits};
ghost use Rattle.std.specs.Float.Ieee.Scale.{finite};
ghost use Rattle.arithmetic.specs.Outcome.{complete};
ghost use Rattle.matrix.specs.Matrix.{at, Square};
ghost use Rattle.solve.specs.Checks.{first_in_row, check_lower};
ghost use Rattle.solve.specs.LowerPart.{SameLower};
ghost use Rattle.encoding.specs.Bytes.{doubles};
ghost use Rattle.byte_solve.specs.Solve.{solve_bytes_call_of, length_byte_checks, pattern_checks, solve_bytes_call};

use arithmetic::refusal::Refusal;
use encoding::checks::{check_double_list, check_entries, check_list_buffer, finite_pattern};
use encoding::double_bytes::DoubleBytes;
use encoding::read::{read_doubles, read_number, read_order};
use encoding::write::write_doubles;
use matrix::checks;
use matrix::entries::{cell, put};
use solve::checks::{check_divisors, check_order};
use solve::substitution::solve_unchecked;

// The pattern of entry (i, j).
fn pattern(l: &[u8], n: usize, i: usize, j: usize) -> u64
    requires l_len { (length l.now ≡ 8 * (n * n)) × (n ≤ 48) }
    requires i_lt_n { (i < n) × (j < n) }
    ensures { of_bits binary64 result ≡ at n (doubles l.now) i j }
{
    read_number(l, 8 * cell(n, i, j))
}

// The first column of row i, up to the diagonal, whose entry isn't finite, or i + 1, as its definition answers. No double is made.
fn first_in_row(l: &[u8], n: usize, i: usize) -> usize
    requires { (length l.now ≡ 8 * (n * n)) × (n ≤ 48) × (i < n) }
    ensures { result ≡ first_in_row n (doubles l.now) i }
{
    let end = i + 1;
    (0..end)
        .position(|j| !finite_pattern(pattern(l, n, i, j)))
        .unwrap_or(end)
}

// 7, of the lower part.
fn check_lower(n: usize, l: &[u8]) -> Result<(), Refusal>
    requires { (length l.now ≡ 8 * (n * n)) × (n ≤ 48) }
    ensures { result ≡ check_lower n (doubles l.now) }
{
    for i in 0..n {
        let j = first_in_row(l, n, i);
        if j <= i {
            return Err(Refusal::NotFinite { row: i, column: j });
        }
    }
    Ok(())
}

// Row i of the lower part: a becomes it there, and stays as it was in the rows before.
fn read_row(l: &[u8], n: usize, i: usize, a: &mut [f64])
    requires l_len { (length l.now ≡ 8 * (n * n)) × (i < n) }
    requires square { Square n a.old }
    requires by_index { (j : ℕ) → j ≤ i → finite (at n (doubles l.now) i j) ≡ true }
    ensures same { length a.new ≡ length a.old }
    ensures row { (j : ℕ) → j ≤ i → at n a.new i j ≡ at n (doubles l.now) i j }
    ensures before { (k : ℕ) → k < i * n → get_or a.new k nan ≡ get_or a.old k nan }
{
    let end = i + 1;
    for j in 0..end {
        put(a, n, i, j, f64::from_bits(pattern(l, n, i, j)));
    }
}

// The lower part. Above the diagonal no double is made, and a stays as it was.
fn read_lower(l: &[u8], n: usize, a: &mut [f64])
    requires l_len { length l.now ≡ 8 * (n * n) }
    requires square { Square n a.old }
    requires by_index { (i j : ℕ) → i < n → j ≤ i → finite (at n (doubles l.now) i j) ≡ true }
    ensures { SameLower n a.new (doubles l.now) }
{
    for i in 0..n {
        read_row(l, n, i, a);
    }
}

// 3, 4, 5, 14.
fn length_byte_checks(n: usize, l: usize, y: usize, p: usize, b: usize) -> Result<(), Refusal>
    ensures { result ≡ length_byte_checks n l y p b }
{
    checks::check_size(n)?;
    check_entries(n, l)?;
    check_list_buffer(n, y)?;
    checks::check_list(n, p)?;
    check_double_list(n, b)
}

// 6, 7. No double is made.
fn pattern_checks(l: &[u8], n: usize, p: &[usize], b: &[u8]) -> Result<(), Refusal>
    requires { (length l.now ≡ 8 * (n * n)) × (n ≤ 48) }
    ensures { result ≡ pattern_checks n l.now p.now b.now }
{
    check_order(n, p)?;
    check_lower(n, l)?;
    checks::check_finite(1, DoubleBytes { bytes: b })
}

// L's lower part and b are read, 15 is checked, and the steps' y becomes bytes. What ends in 2 is lent for doubles.
fn solve_entries(
    l: &[u8],
    n: usize,
    p: &[usize],
    b: &[u8],
    y: &mut [u8],
    l2: &mut [f64],
    b2: &mut [f64],
    values2: &mut [f64],
    y2: &mut [f64],
) -> Result<(), Refusal>
    requires b_value { complete (length_byte_checks n (length l.now) (length y.old) (length p.now) (length b.now)) ≡ true }
    requires b_value_2 { complete (pattern_checks n l.now p.now b.now) ≡ true }
    requires l2_len { (length l2.old ≡ n * n) × (length b2.old ≡ n) × (length values2.old ≡ n) × (length y2.old ≡ n) }
    ensures { solve_bytes_call_of result y.new ≡ solve_bytes_call n l.now p.now b.now y.old }
{
    read_lower(l, n, l2);
    read_doubles(b, b2);
    check_divisors(n, l2)?;
    let outcome = solve_unchecked(l2, n, p, b2, values2, y2);
    write_doubles(y, 0, y2);
    outcome
}

// With parts of arrays lent for the doubles.
fn solve_patterns(l: &[u8], n: usize, p: &[usize], b: &[u8], y: &mut [u8]) -> Result<(), Refusal>
    requires b_value { complete (length_byte_checks n (length l.now) (length y.old) (length p.now) (length b.now)) ≡ true }
    requires b_value_2 { complete (pattern_checks n l.now p.now b.now) ≡ true }
    ensures { solve_bytes_call_of result y.new ≡ solve_bytes_call n l.now p.now b.now y.old }
{
    let mut l2 = [0.0; 2304];
    let mut b2 = [0.0; 48];
    let mut values2 = [0.0; 48];
    let mut y2 = [0.0; 48];
    let m = n * n;
    solve_entries(
        l,
        n,
        p,
        b,
        y,
        &mut l2[0..m],
        &mut b2[0..n],
        &mut values2[0..n],
        &mut y2[0..n],
    )
}

// p is read into p2, and 6 and 7 are checked.
fn solve_read(
    l: &[u8],
    n: usize,
    p: &[u8],
    b: &[u8],
    y: &mut [u8],
    p2: &mut [usize],
) -> Result<(), Refusal>
    requires b_value { complete (length_byte_checks n (length l.now) (length y.old) (length p.now) (length b.now)) ≡ true }
    requires p2_len { length p2.old ≡ n }
    ensures { solve_bytes_call_of result y.new ≡ solve_bytes_call n l.now p.now b.now y.old }
{
    read_order(p, p2);
    pattern_checks(l, n, p2, b)?;
    solve_patterns(l, n, p2, b, y)
}

// The y with L times L transposed times y equal to b, put back in contract order.
pub fn solve(l: &[u8], n: usize, p: &[u8], b: &[u8], y: &mut [u8]) -> Result<(), Refusal>
    ensures { solve_bytes_call_of result y.new ≡ solve_bytes_call n l.now p.now b.now y.old }
{
    length_byte_checks(n, l.len(), y.len(), p.len(), b.len())?;
    let mut p2 = [0; 48];
    solve_read(l, n, p, b, y, &mut p2[0..n])
}
