// Reads one matrix record from standard input and writes its answer record to standard output. Says on standard error what is broken
// in a record's form, and when the answer can't be written.
#![tactic(auto)]

use answer_record::write::LONGEST_ANSWER;
use arithmetic::refusal::Refusal;
use reading::read_full;
use record::answer::answer;
use record::cursor::{Stage, walk};
use std::fmt::Display;

// Where nothing can be said, the answer stands all the same.
fn say(rt: &impl Eprint, words: impl Display + Drop) {
    let _ = eprintln!(rt; "factor: {words}");
}

// The tag that was due in a field; in field 2 a 04 was due too.
fn due(field: usize) -> &'static str {
    match field {
        0 => "01",
        1 => "02",
        2 => "03 or 04",
        _ => "03",
    }
}

// What is broken in a record's form: refusals 1, 10 and 11.
fn say_fault(rt: &impl Eprint, stage: Stage, refusal: Refusal) {
    match (refusal, stage) {
        (Refusal::MalformedRecord, _) => say(
            rt,
            "the record is too long, or n or method is not one byte long, or bytes follow the last field",
        ),
        (Refusal::FieldPastEnd { field }, _) => {
            say(rt, format_args!("the transfer was cut in field {field}"))
        }
        (Refusal::TagNotDue { field }, Stage::WrongTag { tag, .. }) => {
            let due = due(field);
            say(
                rt,
                format_args!("field {field} has tag {tag:02x}, {due} was due"),
            )
        }
        _ => {}
    }
}

fn main(rt: HostRuntime) {
    // One byte more than the longest record, so that a longer input is noticed.
    let mut input = [0; 18639];
    let mut out = [0; LONGEST_ANSWER];
    let len = read_full(&mut rt.stdin(), &mut input);
    let written = answer(&input[..len], &mut out);
    if rt.write_all(&out[..written.len]).is_err() {
        say(&rt, "the answer could not be written");
    }
    if let Err(refusal) = written.outcome {
        say_fault(&rt, walk(&input[..len]).stage, refusal);
    }
}
