// The factorization call: its checks, the run, and what it hands back.
ghost use Rattle.std.specs.Prelude.{◌≡◌, ◌*◌, ◌≤◌, length};
ghost use Rattle.methods.specs.Result.{hand_back};
ghost use Rattle.methods.specs.Calls.{call, unstarted, answered, check_method, number_checks, operand_chain, operand_checks, factor_checks, call_with, factor_call, factor_numbered_call, Operands};
ghost use Rattle.methods.specs.Factor.{factor, tolerances};

use crate::{gmw81, se};
use arithmetic::refusal::{Refusal, refuse};
use matrix::checks;
use matrix::entries::clear;
use methods::decomposition::Decomposition;
use methods::method::Method;
use methods::progress::Progress;
use statements::count_up;

// 2
pub fn check_method(method: usize) -> Result<(), Refusal>
    ensures { result ≡ check_method method }
{
    refuse(method == 0 || 3 < method, Refusal::UnknownMethod)
}

// 12 and 13. Above 48 rows a call is refused before these, so no long list is searched.
fn number_checks(n: usize, numbers: &[u32]) -> Result<(), Refusal>
    ensures { n ≤ 48 → result ≡ number_checks n numbers.now }
{
    if 48 < n {
        return Ok(());
    }
    checks::check_numbers(n, numbers.len())?;
    checks::check_distinct(numbers)
}

// 2 and 3, then 4 of the matrix, what the number checks came to, and 5 of each buffer.
pub fn operand_chain(
    method: usize,
    n: usize,
    matrix: Result<(), Refusal>,
    numbering: Result<(), Refusal>,
    l: Result<(), Refusal>,
    work: Result<(), Refusal>,
    e: Result<(), Refusal>,
    p: Result<(), Refusal>,
) -> Result<(), Refusal>
    ensures { result ≡ operand_chain method n matrix numbering l work e p }
{
    check_method(method)?;
    checks::check_size(n)?;
    matrix?;
    numbering?;
    l?;
    work?;
    e?;
    p
}

// .. on the lengths of the matrix and the buffers.
fn operand_checks(
    method: usize,
    n: usize,
    a: usize,
    numbering: Result<(), Refusal>,
    l: usize,
    work: usize,
    e: usize,
    p: usize,
) -> Result<(), Refusal>
    ensures { result ≡ operand_checks method n a numbering l work e p }
{
    operand_chain(
        method,
        n,
        checks::check_matrix(n, a),
        numbering,
        checks::check_square_buffer(n, l),
        checks::check_square_buffer(n, work),
        checks::check_buffer(n, e),
        checks::check_buffer(n, p),
    )
}

// .. then 7 and 8.
fn factor_checks(
    method: usize,
    a: &[f64],
    n: usize,
    numbering: Result<(), Refusal>,
    l: usize,
    work: usize,
    e: usize,
    p: usize,
) -> Result<(), Refusal>
    ensures { result ≡ factor_checks method n a.now numbering l work e p }
{
    operand_checks(method, n, a.len(), numbering, l, work, e, p)?;
    checks::check_finite(n, a)?;
    checks::check_symmetric(n, a)
}

// Refused before the first step.
pub fn untouched(outcome: Result<(), Refusal>) -> Decomposition
    ensures { result ≡ unstarted outcome }
{
    Decomposition {
        outcome,
        tied: None,
        phase2: None,
        inexact: 0,
    }
}

// The result of a run, with refusal 9's fillings; the work buffer becomes +0.0 throughout.
pub fn hand_back(
    l: &mut [f64],
    work: &mut [f64],
    e: &mut [f64],
    p: &mut [usize],
    n: usize,
    r: Progress,
) -> Decomposition
    requires { (length l.old ≡ n * n) × (length work.old ≡ n * n) × (length e.old ≡ n) × (length p.old ≡ n) }
    ensures { call result l.new work.new e.new p.new ≡ answered n (hand_back n r l.old e.old p.old) }
{
    clear(work);
    if r.refused.is_some() {
        clear(l);
        clear(e);
        count_up(p);
    }
    r.reported()
}

// A run on operands that passed the checks.
pub fn run(
    method: Method,
    a: &[f64],
    n: usize,
    numbers: &[u32],
    l: &mut [f64],
    work: &mut [f64],
    e: &mut [f64],
    p: &mut [usize],
) -> Decomposition
    requires { Operands n a.now (length l.old) (length work.old) (length e.old) (length p.old) }
    ensures { call result l.new work.new e.new p.new ≡ answered n (factor method tolerances numbers.now n a.now) }
{
    match method {
        Method::Gmw81 => gmw81::run(a, n, numbers, l, work, e, p),
        Method::Se(v) => se::run(v, a, n, numbers, l, work, e, p),
    }
}

// A call of which `numbering` is what its number checks came to.
fn factor_with(
    method: usize,
    a: &[f64],
    n: usize,
    numbering: Result<(), Refusal>,
    numbers: &[u32],
    l: &mut [f64],
    work: &mut [f64],
    e: &mut [f64],
    p: &mut [usize],
) -> Decomposition
    ensures { call result l.new work.new e.new p.new ≡ call_with numbering numbers.now method n a.now l.old work.old e.old p.old }
{
    let checks = factor_checks(
        method,
        a,
        n,
        numbering,
        l.len(),
        work.len(),
        e.len(),
        p.len(),
    );
    match checks {
        Ok(()) => run(Method::of(method), a, n, numbers, l, work, e, p),
        Err(refusal) => untouched(Err(refusal)),
    }
}

// The factorization call, by document 01's number of the method.
pub fn factor(
    method: usize,
    a: &[f64],
    n: usize,
    l: &mut [f64],
    work: &mut [f64],
    e: &mut [f64],
    p: &mut [usize],
) -> Decomposition
    ensures { call result l.new work.new e.new p.new ≡ factor_call method n a.now l.old work.old e.old p.old }
{
    factor_with(method, a, n, Ok(()), &[], l, work, e, p)
}

// .. with a number for each contract, by which ties are settled.
pub fn factor_numbered(
    method: usize,
    a: &[f64],
    n: usize,
    numbers: &[u32],
    l: &mut [f64],
    work: &mut [f64],
    e: &mut [f64],
    p: &mut [usize],
) -> Decomposition
    ensures { call result l.new work.new e.new p.new ≡ factor_numbered_call method n a.now numbers.now l.old work.old e.old p.old }
{
    let numbering = number_checks(n, numbers);
    factor_with(method, a, n, numbering, numbers, l, work, e, p)
}
