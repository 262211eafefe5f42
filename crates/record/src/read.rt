// Reading a matrix record: its request, and the checks made on bytes.
ghost use Rattle.std.specs.Prelude.{◌≡◌};
ghost use Rattle.arithmetic.specs.Outcome.{◌then◌};
ghost use Rattle.record.specs.MatrixRecord.{request_of, check_longest, check_walk, check_exact, check_record, request_size_checks, request_number_checks, request_checks};

use crate::cursor::{Cursor, Part, Stage, byte_at};
use answer_record::write::LONGEST_ANSWER;
use arithmetic::refusal::{Refusal, refuse};
use encoding::checks::{check_entries, number_byte_checks};
use encoding::double_bytes::DoubleBytes;
use matrix::checks::{check_buffer, check_finite, check_size};
use modcholesky::calls::check_method;

// ---- what a record asks for

// Its size, its method's number, which may be no method's, and where its contract numbers, if it has any, and its entries stand.
#[derive(Clone, Copy)]
pub struct Request {
    pub size: usize,
    pub method: usize,
    pub numbers: Option<Part>,
    pub entries: Part,
}

// What a walk over b found.
pub fn read_request(b: &[u8], c: Cursor) -> Request
    ensures { result ≡ request_of b.now c }
{
    let parts = c.parts;
    Request {
        size: byte_at(b, parts.size.start),
        method: byte_at(b, parts.method.start),
        numbers: parts.numbers,
        entries: parts.entries,
    }
}

// ---- 1, 10 and 11

const LONGEST_RECORD: usize = 18638;

fn check_longest(len: usize) -> Result<(), Refusal>
    ensures { result ≡ check_longest len }
{
    refuse(LONGEST_RECORD < len, Refusal::MalformedRecord)
}

fn check_walk(stage: Stage) -> Result<(), Refusal>
    ensures { result ≡ check_walk stage }
{
    match stage {
        Stage::Done => Ok(()),
        Stage::SizeDue | Stage::MethodDue | Stage::NumbersOrEntriesDue | Stage::EntriesDue => {
            Err(Refusal::MalformedRecord)
        }
        Stage::PastEnd { field } => Err(Refusal::FieldPastEnd { field }),
        Stage::WrongTag { field, .. } => Err(Refusal::TagNotDue { field }),
    }
}

// The fields 01 and 02 have one byte each, and nothing stands after the last field.
fn check_exact(c: Cursor, len: usize) -> Result<(), Refusal>
    ensures { result ≡ check_exact c len }
{
    let exact = c.parts.size.len == 1 && c.parts.method.len == 1 && c.at == len;
    refuse(!exact, Refusal::MalformedRecord)
}

pub fn check_record(len: usize, c: Cursor) -> Result<(), Refusal>
    ensures { result ≡ check_record len c }
{
    check_longest(len)?;
    check_walk(c.stage)?;
    check_exact(c, len)
}

// ---- 2, 3, 4, 12, 13, 5 and 7

// 2, 3, 4, on the length of the entries in bytes.
fn request_size_checks(r: Request, entries: usize) -> Result<(), Refusal>
    ensures { result ≡ request_size_checks r entries }
{
    check_method(r.method)?;
    check_size(r.size)?;
    check_entries(r.size, entries)
}

// 12 and 13 on the bytes of field 04, where there is one.
fn request_number_checks(r: Request, contracts: &[u8]) -> Result<(), Refusal>
    ensures { result ≡ request_number_checks r contracts.now }
{
    match r.numbers {
        Some(_) => number_byte_checks(r.size, contracts),
        None => Ok(()),
    }
}

// `room` is the length of the buffer lent for the answer.
pub fn request_checks(
    r: Request,
    room: usize,
    contracts: &[u8],
    entries: &[u8],
) -> Result<(), Refusal>
    ensures { result ≡ request_checks r room contracts.now entries.now }
{
    request_size_checks(r, entries.len())?;
    request_number_checks(r, contracts)?;
    check_buffer(LONGEST_ANSWER, room)?;
    check_finite(r.size, DoubleBytes { bytes: entries })
}

// 1, 10 and 11, then the request's.
pub fn byte_checks(
    len: usize,
    c: Cursor,
    r: Request,
    room: usize,
    contracts: &[u8],
    entries: &[u8],
) -> Result<(), Refusal>
    ensures { result ≡ (check_record len c then request_checks r room contracts.now entries.now) }
{
    check_record(len, c)?;
    request_checks(r, room, contracts, entries)
}
