// How an exported call ended.
ghost use Rattle.std.specs.Prelude.{◌≡◌};
ghost use Rattle.exports.specs.Exports.{status};

use arithmetic::refusal::{Place, Refusal, number};

// Document 01's number, 0 for a complete call, and its place.
#[repr(C)]
#[derive(Clone, Copy)]
pub struct Status {
    pub number: usize,
    pub row: usize,
    pub column: usize,
}

impl From<Result<(), Refusal>> for Status {
    ghost from_gives = { λ outcome given. given ≡ status outcome };

    fn from(outcome: Result<(), Refusal>) -> Status {
        let place = Place::from(outcome);
        Status {
            number: usize::from(number(outcome)),
            row: place.row,
            column: place.column,
        }
    }
}
