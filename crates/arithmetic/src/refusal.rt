// Why a call is refused (document 01, 'Refusals, in checking order', and document 02). A check answers Ok or its refusal, and the first
// refusal of a call's checks is the call's.
ghost use Rattle.std.specs.Prelude.{◌≡◌};
ghost use Rattle.arithmetic.specs.Outcome.{number_of, place_of, number, place, refuse};

// By their numbers. A record is checked for 1 (too long), 10 or 11, 1 (lengths, bytes after the last field), then 2 on; 12 and 13 come
// between 4 and 5, 14 between 5 and 6, and 15 after 7.
#[derive(Clone, Copy)]
pub enum Refusal {
    // The record is too long, or its fields stand in order and a length, or a byte after them, is wrong.
    MalformedRecord,
    UnknownMethod,
    // n is 0 or above 48, or a search is over nothing.
    SizeOutOfRange,
    MatrixLength,
    BufferLength,
    // An index not below n, or in a list that has each once one that came before, by its position among those given.
    IndexOutOfRange { position: usize },
    // An entry or operand that is infinite or NaN.
    NotFinite { row: usize, column: usize },
    Unsymmetric { row: usize, column: usize },
    // A step stored a value that is infinite or NaN.
    StoredNotFinite { step: usize },
    // The header or content of a record's field runs past the end.
    FieldPastEnd { field: usize },
    // A record's field has a tag that isn't due.
    TagNotDue { field: usize },
    // There are more or fewer contract numbers than rows.
    NumbersLength,
    // A contract number that came before.
    NumberRepeated { position: usize },
    // The length of p or b isn't n.
    ListLength,
    // A diagonal entry of L is zero, of either sign.
    ZeroDiagonal { row: usize },
}

// By documents 01 and 02.
impl From<Refusal> for u8 {
    ghost from_gives = { λ refusal number. number ≡ number_of refusal };

    fn from(refusal: Refusal) -> u8 {
        match refusal {
            Refusal::MalformedRecord => 1,
            Refusal::UnknownMethod => 2,
            Refusal::SizeOutOfRange => 3,
            Refusal::MatrixLength => 4,
            Refusal::BufferLength => 5,
            Refusal::IndexOutOfRange { .. } => 6,
            Refusal::NotFinite { .. } => 7,
            Refusal::Unsymmetric { .. } => 8,
            Refusal::StoredNotFinite { .. } => 9,
            Refusal::FieldPastEnd { .. } => 10,
            Refusal::TagNotDue { .. } => 11,
            Refusal::NumbersLength => 12,
            Refusal::NumberRepeated { .. } => 13,
            Refusal::ListLength => 14,
            Refusal::ZeroDiagonal { .. } => 15,
        }
    }
}

// Row and column, or position, step or field and 0; 0 and 0 where no place is named.
#[derive(Clone, Copy)]
pub struct Place {
    pub row: usize,
    pub column: usize,
}

impl From<Refusal> for Place {
    ghost from_gives = { λ refusal place. place ≡ place_of refusal };

    fn from(refusal: Refusal) -> Place {
        match refusal {
            Refusal::NotFinite { row, column } | Refusal::Unsymmetric { row, column } => Place {
                row,
                column,
            },
            Refusal::IndexOutOfRange { position: row }
            | Refusal::StoredNotFinite { step: row }
            | Refusal::FieldPastEnd { field: row }
            | Refusal::TagNotDue { field: row }
            | Refusal::NumberRepeated { position: row }
            | Refusal::ZeroDiagonal { row } => Place { row, column: 0 },
            Refusal::MalformedRecord
            | Refusal::UnknownMethod
            | Refusal::SizeOutOfRange
            | Refusal::MatrixLength
            | Refusal::BufferLength
            | Refusal::NumbersLength
            | Refusal::ListLength => Place { row: 0, column: 0 },
        }
    }
}

// The place of a call's refusal; 0 and 0 for none.
impl From<Result<(), Refusal>> for Place {
    ghost from_gives = { λ outcome given. given ≡ place outcome };

    fn from(outcome: Result<(), Refusal>) -> Place {
        match outcome {
            Ok(()) => Place { row: 0, column: 0 },
            Err(refusal) => Place::from(refusal),
        }
    }
}

// The number of a call's refusal; 0 for none. No From, since Result and u8 are both the library's.
pub fn number(outcome: Result<(), Refusal>) -> u8
    ensures { result ≡ number outcome }
{
    match outcome {
        Ok(()) => 0,
        Err(refusal) => u8::from(refusal),
    }
}

// A check that refuses where `bad` holds.
pub fn refuse(bad: bool, refusal: Refusal) -> Result<(), Refusal>
    ensures { result ≡ refuse bad refusal }
{
    if bad { Err(refusal) } else { Ok(()) }
}
