// A walk over a record's fields. A field has a one-byte tag, a two-byte length, low byte first, and its content.
ghost use Rattle.std.specs.Prelude.{◌≡◌, ◌-◌, ◌≤◌, ◌<◌, length, get_or};
ghost use Rattle.record.specs.Cursor.{expect, after, nothing_due, noted_if, noted, part_at, cut, content_at, optional_content, pass_field, walk};

// Which field is due, or how the walk ended: a field's index counts those that stand in the record.
#[derive(Clone, Copy)]
pub enum Stage {
    SizeDue,
    MethodDue,
    // 04 or 03.
    NumbersOrEntriesDue,
    EntriesDue,
    Done,
    // The header or content of a field runs past the end.
    PastEnd { field: usize },
    // Another tag stands there than is due.
    WrongTag { field: usize, tag: usize },
}

// Where a field's content stands.
#[derive(Clone, Copy)]
pub struct Part {
    pub start: usize,
    pub len: usize,
}

// The contents found so far.
#[derive(Clone, Copy)]
pub struct Parts {
    pub size: Part,
    pub method: Part,
    // Of a field 04, where there is one.
    pub numbers: Option<Part>,
    pub entries: Part,
}

// `at` is where the next field starts.
#[derive(Clone, Copy)]
pub struct Cursor {
    pub at: usize,
    pub stage: Stage,
    pub parts: Parts,
}

// The most fields that a record has.
const MOST_FIELDS: usize = 4;

// 0 past the end.
pub fn byte_at(b: &[u8], at: usize) -> usize
    ensures { (result ≡ get_or b.now at 0) × (result < 256) }
{
    usize::from(b.get(at).copied().unwrap_or(0))
}

// How many bytes there are from `at` on.
fn bytes_left(b: &[u8], at: usize) -> usize
    ensures { result ≡ length b.now - at }
{
    b.len().saturating_sub(at)
}

// The content of the field whose header stands at `at`.
fn part_at(b: &[u8], at: usize) -> Part
    requires { 3 ≤ length b.now - at }
    ensures { result ≡ part_at b.now at }
{
    Part {
        start: at + 3,
        len: usize::from(u16::from_le_bytes([b[at + 1], b[at + 2]])),
    }
}

fn cut(b: &[u8], at: usize) -> bool
    ensures { result ≡ cut b.now at }
{
    let room = bytes_left(b, at);
    if room < 3 {
        return true;
    }
    let part = part_at(b, at);
    room - 3 < part.len
}

// The stage `next` where the tag is the one due, else WrongTag. Tags are the record format's numbers.
fn expect(field: usize, tag: usize, due: usize, next: Stage) -> Stage
    ensures { result ≡ expect field tag due next }
{
    if tag == due {
        return next;
    }
    Stage::WrongTag { field, tag }
}

// The stage after a field, by the tag that stands there.
fn after(field: usize, stage: Stage, tag: usize) -> Stage
    ensures { result ≡ after field stage tag }
{
    match stage {
        Stage::SizeDue => expect(field, tag, 0x01, Stage::MethodDue),
        Stage::MethodDue => expect(field, tag, 0x02, Stage::NumbersOrEntriesDue),
        Stage::NumbersOrEntriesDue => {
            if tag == 0x04 {
                return Stage::EntriesDue;
            }
            expect(field, tag, 0x03, Stage::Done)
        }
        Stage::EntriesDue => expect(field, tag, 0x03, Stage::Done),
        Stage::Done | Stage::PastEnd { .. } | Stage::WrongTag { .. } => stage,
    }
}

fn nothing_due(stage: Stage) -> bool
    ensures { result ≡ nothing_due stage }
{
    matches!(
        stage,
        Stage::Done | Stage::PastEnd { .. } | Stage::WrongTag { .. }
    )
}

// The part found where the field's tag is this one, else what was noted before.
fn noted_if<T: Copy>(tag: usize, due: usize, part: T, before: T) -> T
    ensures { result ≡ noted_if tag due part before }
{
    if tag == due { part } else { before }
}

fn noted(parts: Parts, tag: usize, part: Part) -> Parts
    ensures { result ≡ noted tag part parts }
{
    Parts {
        size: noted_if(tag, 0x01, part, parts.size),
        method: noted_if(tag, 0x02, part, parts.method),
        numbers: noted_if(tag, 0x04, Some(part), parts.numbers),
        entries: noted_if(tag, 0x03, part, parts.entries),
    }
}

// Passes the field with this index.
fn pass_field(b: &[u8], field: usize, c: Cursor) -> Cursor
    ensures { result ≡ pass_field b.now field c }
{
    let at = c.at;
    let stage = c.stage;
    let parts = c.parts;
    if nothing_due(stage) {
        return c;
    }
    if cut(b, at) {
        return Cursor {
            at,
            stage: Stage::PastEnd { field },
            parts,
        };
    }
    let tag = byte_at(b, at);
    let part = part_at(b, at);
    Cursor {
        at: part.start + part.len,
        stage: after(field, stage, tag),
        parts: noted(parts, tag, part),
    }
}

pub fn walk(b: &[u8]) -> Cursor
    ensures { result ≡ walk b.now }
{
    let none = Part { start: 0, len: 0 };
    let mut c = Cursor {
        at: 0,
        stage: Stage::SizeDue,
        parts: Parts {
            size: none,
            method: none,
            numbers: None,
            entries: none,
        },
    };
    for field in 0..MOST_FIELDS {
        c = pass_field(b, field, c);
    }
    c
}

// The bytes of a part, as far as there are any.
pub fn content(b: &[u8], part: Part) -> &[u8]
    ensures { result.now ≡ content_at b.now part }
{
    let start = part.start.min(b.len());
    let len = part.len.min(b.len() - start);
    &b[start..start + len]
}

// .. none where there is no such part.
pub fn optional_content(b: &[u8], part: Option<Part>) -> &[u8]
    ensures { result.now ≡ optional_content b.now part }
{
    match part {
        Some(part) => content(b, part),
        None => &[],
    }
}
