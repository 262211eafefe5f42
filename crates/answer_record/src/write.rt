// Answer records, written into a lent buffer. Each function writes from a position on and returns the next one.
ghost use Rattle.std.specs.Prelude.{◌≡◌, true, false, [], ◌∷◌, ◌+◌, ◌*◌, ◌≤◌, ◌<◌, length};
ghost use Rattle.arithmetic.specs.Outcome.{complete, place};
ghost use Rattle.matrix.specs.Plain.{AllBelow};
ghost use Rattle.encoding.specs.Bytes.{bytes, double_bytes};
ghost use Rattle.answer_record.specs.Field.{field};
ghost use Rattle.answer_record.specs.AnswerRecord.{longest_answer, step_byte, marks_fields, count_field, factor_fields, place_field, answer_record};
ghost use Rattle.encoding.specs.Writing.{over, Wrote, EachFinite};
ghost use Rattle.answer_record.specs.Writing.{Front, StepFits, MarksFit, PlaceFits, Fits, result_with};

use arithmetic::refusal::{Place, number};
use encoding::write::{write_byte, write_doubles, write_order};
use methods::decomposition::Decomposition;

// A buffer of this length holds every answer.
pub const LONGEST_ANSWER: usize = 18889;

// A field's tag and length.
fn write_head(out: &mut [u8], at: usize, tag: u8, len: usize) -> usize
    requires { (at + 3 ≤ length out.old) × (len < 65536) }
    ensures { (out.new ≡ over out.old at (tag ∷ bytes 2 len)) × (result ≡ at + 3) }
{
    let [low, high] = (len as u16).to_le_bytes();
    let next = write_byte(out, at, tag);
    let last = write_byte(out, next, low);
    write_byte(out, last, high)
}

// 255 for none, by the record format.
fn step_byte(m: Option<usize>) -> u8
    requires { StepFits m }
    ensures { result ≡ step_byte m }
{
    match m {
        None => 255,
        Some(j) => j as u8,
    }
}

// A field of one byte.
fn write_byte_field(out: &mut [u8], at: usize, tag: u8, v: u8) -> usize
    requires { at + 4 ≤ length out.old }
    ensures { (out.new ≡ over out.old at (field tag (v ∷ []))) × (result ≡ at + 4) }
{
    let next = write_head(out, at, tag, 1);
    write_byte(out, next, v)
}

fn write_doubles_field(out: &mut [u8], at: usize, tag: u8, x: &[f64]) -> usize
    requires x_in_bounds { (at + (3 + 8 * length x.now) ≤ length out.old) × (length x.now ≤ 2304) }
    requires each_finite { EachFinite x.now }
    ensures { (out.new ≡ over out.old at (field tag (double_bytes x.now))) × (result ≡ at + (3 + 8 * length x.now)) }
{
    let next = write_head(out, at, tag, 8 * x.len());
    write_doubles(out, next, x)
}

fn write_order_field(out: &mut [u8], at: usize, tag: u8, p: &[usize]) -> usize
    requires p_in_bounds { (at + (3 + length p.now) ≤ length out.old) × (length p.now ≤ 48) }
    requires all_below { AllBelow 256 p.now }
    ensures { (out.new ≡ over out.old at (field tag p.now)) × (result ≡ at + (3 + length p.now)) }
{
    let next = write_head(out, at, tag, p.len());
    write_order(out, next, p)
}

fn write_marks(out: &mut [u8], d: Decomposition) -> usize
    requires in_bounds { 12 ≤ length out.old }
    requires marks_fit { MarksFit d }
    ensures { (out.new ≡ over out.old 0 (marks_fields d)) × (result ≡ 12) }
{
    let next = write_byte_field(out, 0, 0x11, number(d.outcome));
    let last = write_byte_field(out, next, 0x12, step_byte(d.tied));
    write_byte_field(out, last, 0x13, step_byte(d.phase2))
}

fn write_factor(out: &mut [u8], at: usize, p: &[usize], e: &[f64], l: &[f64]) -> usize
    requires at_in_bounds { at + 18873 ≤ length out.old }
    requires p_len_bound { (length p.now ≤ 48) × (length e.now ≤ 48) × (length l.now ≤ 2304) }
    requires all_below { AllBelow 256 p.now × EachFinite e.now × EachFinite l.now }
    ensures { Wrote (factor_fields p.now e.now l.now) at out.old out.new result }
{
    let amounts = write_order_field(out, at, 0x14, p);
    let factor = write_doubles_field(out, amounts, 0x15, e);
    write_doubles_field(out, factor, 0x16, l)
}

fn write_place(out: &mut [u8], at: usize, place: Place) -> usize
    requires at_in_bounds { at + 5 ≤ length out.old }
    requires place_fits { PlaceFits place }
    ensures { (out.new ≡ over out.old at (place_field place)) × (result ≡ at + 5) }
{
    let row = write_head(out, at, 0x17, 2);
    let column = write_byte(out, row, place.row as u8);
    write_byte(out, column, place.column as u8)
}

pub fn write_complete(out: &mut [u8], d: Decomposition, l: &[f64], e: &[f64], p: &[usize]) -> usize
    requires out_len { (length out.old ≡ longest_answer) × (complete d.outcome ≡ true) }
    requires fits { Fits (result_with d l.now e.now p.now) }
    ensures { Front (answer_record (result_with d l.now e.now p.now)) out.old out.new result }
{
    let next = write_marks(out, d);
    let order = write_byte_field(out, next, 0x18, d.inexact as u8);
    write_factor(out, order, p, e, l)
}

// A refusal has no count, p, e and L.
pub fn write_refusal(out: &mut [u8], d: Decomposition) -> usize
    requires out_len { (length out.old ≡ longest_answer) × (complete d.outcome ≡ false) }
    requires marks_fit { MarksFit d × PlaceFits (place d.outcome) }
    ensures { Front (answer_record (result_with d [] [] [])) out.old out.new result }
{
    let next = write_marks(out, d);
    write_place(out, next, Place::from(d.outcome.unwrap_err()))
}
