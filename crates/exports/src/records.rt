// Records, on bytes.
ghost use Rattle.std.specs.Prelude.{◌≡◌};
ghost use Rattle.record.specs.Record.{record_call};
ghost use Rattle.exports.specs.Exports.{written, record_export};

use crate::status::Status;
use record::answer::{RecordAnswer, answer as answer_to};

// How the call ended, and the answer's length.
#[repr(C)]
#[derive(Clone, Copy)]
pub struct Written {
    pub refusal: Status,
    pub length: usize,
}

impl From<RecordAnswer> for Written {
    ghost from_gives = { λ answer given. given ≡ written answer };

    fn from(answer: RecordAnswer) -> Written {
        Written {
            refusal: Status::from(answer.outcome),
            length: answer.len,
        }
    }
}

// Writes the answer to a matrix record into `answer`, where that has 18,889 bytes.
#[unsafe(no_mangle)]
pub extern "C" fn millracer_record(b: &[u8], answer: &mut [u8]) -> Written
    ensures { record { written = result; answer = answer.new } ≡ record_export (record_call b.now answer.old) }
{
    Written::from(answer_to(b, answer))
}
