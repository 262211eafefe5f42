// The answer to a matrix record.
ghost use Rattle.std.specs.Prelude.{◌≡◌, true, ◌*◌, length};
ghost use Rattle.arithmetic.specs.Outcome.{complete};
ghost use Rattle.methods.specs.Calls.{call};
ghost use Rattle.record.specs.MatrixRecord.{request_checks};
ghost use Rattle.record.specs.Record.{Answers, Buffers, Lent, OwnContracts, request_call, result_to, record_call_of, record_call, Counts};

use crate::read::Request;
use crate::{cursor, read};
use answer_record::write;
use answer_record::write::LONGEST_ANSWER;
use arithmetic::refusal::Refusal;
use encoding::read::{read_doubles, read_numbers};
use matrix::checks::check_symmetric;
use methods::decomposition::Decomposition;
use methods::method::Method;
use modcholesky::calls;

// Check 8, then the run.
fn factor_request(
    r: Request,
    a: &[f64],
    numbers: &[u32],
    l: &mut [f64],
    work: &mut [f64],
    e: &mut [f64],
    p: &mut [usize],
) -> Decomposition
    requires { Lent r.size a.now (length l.old) (length work.old) (length e.old) (length p.old) }
    ensures { call result l.new work.new e.new p.new ≡ request_call r numbers.now a.now l.old work.old e.old p.old }
{
    let n = r.size;
    match check_symmetric(n, a) {
        Ok(()) => calls::run(Method::of(r.method), a, n, numbers, l, work, e, p),
        Err(refusal) => calls::untouched(Err(refusal)),
    }
}

// How the call ended, and the answer's length, which a refusal has too: its answer record is written. The buffer is the caller's, by the C
// interface.
#[derive(Clone, Copy)]
pub struct RecordAnswer {
    pub outcome: Result<(), Refusal>,
    pub len: usize,
}

// The request's matrix is read into a, its contract numbers into numbers.
fn answer_entries(
    r: Request,
    contracts: &[u8],
    entries: &[u8],
    out: &mut [u8],
    numbers: &mut [u32],
    a: &mut [f64],
    l: &mut [f64],
    work: &mut [f64],
    e: &mut [f64],
    p: &mut [usize],
) -> RecordAnswer
    requires entries_value { complete (request_checks r (length out.old) contracts.now entries.now) ≡ true }
    requires contracts_len { length contracts.now ≡ 4 * length numbers.old }
    requires buffers { Buffers r.size (length a.old) (length l.old) (length work.old) (length e.old) (length p.old) }
    ensures { Answers (result_to r contracts.now entries.now) out.old out.new result }
{
    read_numbers(contracts, numbers);
    read_doubles(entries, a);
    let d = factor_request(r, a, numbers, l, work, e, p);
    let len = match d.outcome {
        Ok(()) => write::write_complete(out, d, l, e, p),
        Err(_) => write::write_refusal(out, d),
    };
    RecordAnswer {
        outcome: d.outcome,
        len,
    }
}

// The answer to a request that passed the checks on bytes.
fn answer_request(r: Request, contracts: &[u8], entries: &[u8], out: &mut [u8]) -> RecordAnswer
    requires entries_value { complete (request_checks r (length out.old) contracts.now entries.now) ≡ true }
    requires own_contracts { OwnContracts r contracts.now }
    ensures { Answers (result_to r contracts.now entries.now) out.old out.new result }
{
    let mut numbers = [0; 48];
    let mut a = [0.0; 2304];
    let mut l = [0.0; 2304];
    let mut work = [0.0; 2304];
    let mut e = [0.0; 48];
    let mut p = [0; 48];
    let n = r.size;
    let m = n * n;
    let k = contracts.len() / 4;
    answer_entries(
        r,
        contracts,
        entries,
        out,
        &mut numbers[0..k],
        &mut a[0..m],
        &mut l[0..m],
        &mut work[0..m],
        &mut e[0..n],
        &mut p[0..n],
    )
}

// Writes the answer into out, where it has LONGEST_ANSWER bytes.
pub fn answer(b: &[u8], out: &mut [u8]) -> RecordAnswer
    ensures out_after { record_call_of result.outcome result.len out.new ≡ record_call b.now out.old }
    ensures counts { Counts result.len out.new }
{
    let c = cursor::walk(b);
    let r = read::read_request(b, c);
    let contracts = cursor::optional_content(b, r.numbers);
    let entries = cursor::content(b, r.entries);
    let room = out.len();
    let outcome = read::byte_checks(b.len(), c, r, room, contracts, entries);
    if room != LONGEST_ANSWER {
        return RecordAnswer { outcome, len: 0 };
    }
    match outcome {
        Ok(()) => answer_request(r, contracts, entries, out),
        Err(refusal) => RecordAnswer {
            outcome,
            len: write::write_refusal(out, calls::untouched(Err(refusal))),
        },
    }
}
