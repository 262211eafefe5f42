// The factorization on bytes: doubles are eight bytes and contract numbers four, low byte first, p one byte an index.
#![tactic(auto)]

ghost use Rattle.std.specs.Prelude.{◌≡◌, true, Ok, ◌*◌, ◌≤◌, length};
ghost use Rattle.arithmetic.specs.Outcome.{complete};
ghost use Rattle.encoding.specs.Checks.{number_byte_checks};
ghost use Rattle.byte_factor.specs.Factor.{bytes_call, operand_byte_checks, entry_byte_checks, bytes_call_with, factor_bytes_call, factor_numbered_bytes_call};

use arithmetic::refusal::Refusal;
use encoding::checks::{check_entries, check_list_buffer, check_matrix_buffer, number_byte_checks};
use encoding::double_bytes::DoubleBytes;
use encoding::read::{read_doubles, read_numbers};
use encoding::write::{clear_bytes, write_doubles, write_order};
use matrix::checks;
use methods::decomposition::Decomposition;
use methods::method::Method;
use modcholesky::calls::{operand_chain, run, untouched};

// 12 and 13. Above 48 rows a call is refused before these, so no long list is searched.
fn number_checks(n: usize, numbers: &[u8]) -> Result<(), Refusal>
    ensures { n ≤ 48 → result ≡ number_byte_checks n numbers.now }
{
    if 48 < n {
        return Ok(());
    }
    number_byte_checks(n, numbers)
}

// 2, 3, 4, what the number checks came to, and 5, on the lengths of the matrix and the buffers.
fn operand_byte_checks(
    method: usize,
    n: usize,
    a: usize,
    numbering: Result<(), Refusal>,
    l: usize,
    work: usize,
    e: usize,
    p: usize,
) -> Result<(), Refusal>
    ensures { result ≡ operand_byte_checks method n a numbering l work e p }
{
    operand_chain(
        method,
        n,
        check_entries(n, a),
        numbering,
        check_matrix_buffer(n, l),
        check_matrix_buffer(n, work),
        check_list_buffer(n, e),
        checks::check_buffer(n, p),
    )
}

// .. then 7.
#[tactic(auto, unfolding(crate::specs::Factor::entry_byte_checks))]
fn entry_byte_checks(
    method: usize,
    a: &[u8],
    n: usize,
    numbering: Result<(), Refusal>,
    l: usize,
    work: usize,
    e: usize,
    p: usize,
) -> Result<(), Refusal>
    ensures { result ≡ entry_byte_checks method n a.now numbering l work e p }
{
    operand_byte_checks(method, n, a.len(), numbering, l, work, e, p)?;
    checks::check_finite(n, DoubleBytes { bytes: a })
}

// The number checks having passed: check 8, then the run on doubles; its result becomes bytes. What ends in 2 is lent for the doubles and indices.
fn factor_entries(
    method: usize,
    a: &[u8],
    n: usize,
    numbers: &[u32],
    l: &mut [u8],
    work: &mut [u8],
    e: &mut [u8],
    p: &mut [u8],
    a2: &mut [f64],
    l2: &mut [f64],
    work2: &mut [f64],
    e2: &mut [f64],
    p2: &mut [usize],
) -> Decomposition
    requires p_value { complete (entry_byte_checks method n a.now (Ok tt) (length l.old) (length work.old) (length e.old) (length p.old)) ≡ true }
    requires a2_len { (length a2.old ≡ n * n) × (length l2.old ≡ n * n) × (length work2.old ≡ n * n) × (length e2.old ≡ n) × (length p2.old ≡ n) }
    ensures { bytes_call result l.new work.new e.new p.new ≡ bytes_call_with (Ok tt) numbers.now method n a.now l.old work.old e.old p.old }
{
    read_doubles(a, a2);
    if let Err(refusal) = checks::check_symmetric(n, a2) {
        return untouched(Err(refusal));
    }
    let d = run(Method::of(method), a2, n, numbers, l2, work2, e2, p2);
    write_doubles(l, 0, l2);
    write_doubles(e, 0, e2);
    write_order(p, 0, p2);
    clear_bytes(work);
    d
}

// With parts of arrays lent for the doubles and indices.
fn factor_unchecked(
    method: usize,
    a: &[u8],
    n: usize,
    numbers: &[u32],
    l: &mut [u8],
    work: &mut [u8],
    e: &mut [u8],
    p: &mut [u8],
) -> Decomposition
    requires { complete (entry_byte_checks method n a.now (Ok tt) (length l.old) (length work.old) (length e.old) (length p.old)) ≡ true }
    ensures { bytes_call result l.new work.new e.new p.new ≡ bytes_call_with (Ok tt) numbers.now method n a.now l.old work.old e.old p.old }
{
    let mut a2 = [0.0; 2304];
    let mut l2 = [0.0; 2304];
    let mut work2 = [0.0; 2304];
    let mut e2 = [0.0; 48];
    let mut p2 = [0; 48];
    let m = n * n;
    factor_entries(
        method,
        a,
        n,
        numbers,
        l,
        work,
        e,
        p,
        &mut a2[0..m],
        &mut l2[0..m],
        &mut work2[0..m],
        &mut e2[0..n],
        &mut p2[0..n],
    )
}

// By document 01's number of the method.
pub fn factor(
    method: usize,
    a: &[u8],
    n: usize,
    l: &mut [u8],
    work: &mut [u8],
    e: &mut [u8],
    p: &mut [u8],
) -> Decomposition
    ensures { bytes_call result l.new work.new e.new p.new ≡ factor_bytes_call method n a.now l.old work.old e.old p.old }
{
    let checks = entry_byte_checks(method, a, n, Ok(()), l.len(), work.len(), e.len(), p.len());
    match checks {
        Ok(()) => factor_unchecked(method, a, n, &[], l, work, e, p),
        Err(refusal) => untouched(Err(refusal)),
    }
}

// The contracts' numbers are read into `read`.
fn factor_read(
    method: usize,
    a: &[u8],
    n: usize,
    numbers: &[u8],
    read: &mut [u32],
    l: &mut [u8],
    work: &mut [u8],
    e: &mut [u8],
    p: &mut [u8],
) -> Decomposition
    requires p_value { complete (entry_byte_checks method n a.now (number_byte_checks n numbers.now) (length l.old) (length work.old) (length e.old) (length p.old)) ≡ true }
    requires read_len { length read.old ≡ n }
    ensures { bytes_call result l.new work.new e.new p.new ≡ factor_numbered_bytes_call method n a.now numbers.now l.old work.old e.old p.old }
{
    read_numbers(numbers, read);
    factor_unchecked(method, a, n, read, l, work, e, p)
}

// With a number of four bytes for each contract, by which ties are settled.
pub fn factor_numbered(
    method: usize,
    a: &[u8],
    n: usize,
    numbers: &[u8],
    l: &mut [u8],
    work: &mut [u8],
    e: &mut [u8],
    p: &mut [u8],
) -> Decomposition
    ensures { bytes_call result l.new work.new e.new p.new ≡ factor_numbered_bytes_call method n a.now numbers.now l.old work.old e.old p.old }
{
    let checks = entry_byte_checks(
        method,
        a,
        n,
        number_checks(n, numbers),
        l.len(),
        work.len(),
        e.len(),
        p.len(),
    );
    match checks {
        Ok(()) => {
            let mut read: [u32; 48] = [0; 48];
            factor_read(method, a, n, numbers, &mut read[0..n], l, work, e, p)
        }
        Err(refusal) => untouched(Err(refusal)),
    }
}
