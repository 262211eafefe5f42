// The factorizations, by document 01's number of the method.
ghost use Rattle.std.specs.Prelude.{◌≡◌};
ghost use Rattle.methods.specs.Calls.{factor_call, factor_numbered_call};
ghost use Rattle.answer_record.specs.AnswerRecord.{step_byte};
ghost use Rattle.byte_factor.specs.Factor.{factor_bytes_call, factor_numbered_bytes_call};
ghost use Rattle.exports.specs.Exports.{factorization, factor_bytes_export, factor_doubles_export};

use crate::status::Status;
use methods::decomposition::Decomposition;
use modcholesky::calls::{factor, factor_numbered};

// The tied step and the phase-two step, 255 for none, and how many of the diagonal roots are inexact.
#[repr(C)]
#[derive(Clone, Copy)]
pub struct Factorization {
    pub refusal: Status,
    pub tied: usize,
    pub phase2: usize,
    pub inexact: usize,
}

impl From<Decomposition> for Factorization {
    ghost from_gives = { λ answer given. given ≡ factorization answer };

    fn from(answer: Decomposition) -> Factorization {
        Factorization {
            refusal: Status::from(answer.outcome),
            tied: step_number(answer.tied),
            phase2: step_number(answer.phase2),
            inexact: answer.inexact,
        }
    }
}

// By the C interface.
fn step_number(mark: Option<usize>) -> usize
    ensures { result ≡ step_byte mark }
{
    mark.unwrap_or(255)
}

#[unsafe(no_mangle)]
pub extern "C" fn millracer_factor_bytes(
    method: usize,
    a: &[u8],
    n: usize,
    l: &mut [u8],
    work: &mut [u8],
    e: &mut [u8],
    p: &mut [u8],
) -> Factorization
    ensures { record { factorization = result; l = l.new; work = work.new; e = e.new; p = p.new } ≡ factor_bytes_export (factor_bytes_call method n a.now l.old work.old e.old p.old) }
{
    Factorization::from(byte_factor::factor(method, a, n, l, work, e, p))
}

// With a number of four bytes for each contract, by which ties are settled.
#[unsafe(no_mangle)]
pub extern "C" fn millracer_factor_numbered_bytes(
    method: usize,
    a: &[u8],
    n: usize,
    numbers: &[u8],
    l: &mut [u8],
    work: &mut [u8],
    e: &mut [u8],
    p: &mut [u8],
) -> Factorization
    ensures { record { factorization = result; l = l.new; work = work.new; e = e.new; p = p.new } ≡ factor_bytes_export (factor_numbered_bytes_call method n a.now numbers.now l.old work.old e.old p.old) }
{
    Factorization::from(byte_factor::factor_numbered(method, a, n, numbers, l, work, e, p))
}

// The same on slices of doubles, for callers that have them.
#[unsafe(no_mangle)]
pub extern "C" fn millracer_factor_doubles(
    method: usize,
    a: &[f64],
    n: usize,
    l: &mut [f64],
    work: &mut [f64],
    e: &mut [f64],
    p: &mut [usize],
) -> Factorization
    ensures { record { factorization = result; l = l.new; work = work.new; e = e.new; p = p.new } ≡ factor_doubles_export (factor_call method n a.now l.old work.old e.old p.old) }
{
    Factorization::from(factor(method, a, n, l, work, e, p))
}

#[unsafe(no_mangle)]
pub extern "C" fn millracer_factor_numbered_doubles(
    method: usize,
    a: &[f64],
    n: usize,
    numbers: &[u32],
    l: &mut [f64],
    work: &mut [f64],
    e: &mut [f64],
    p: &mut [usize],
) -> Factorization
    ensures { record { factorization = result; l = l.new; work = work.new; e = e.new; p = p.new } ≡ factor_doubles_export (factor_numbered_call method n a.now numbers.now l.old work.old e.old p.old) }
{
    Factorization::from(factor_numbered(method, a, n, numbers, l, work, e, p))
}
