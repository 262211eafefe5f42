// The square root, and whether rounding changed it.
ghost use Rattle.std.specs.Prelude.{◌≡◌};
ghost use Rattle.arithmetic.specs.Sqrt.{sqrt_call};
ghost use Rattle.exports.specs.Exports.{root};

use crate::status::Status;
use arithmetic::refusal::Refusal;
use arithmetic::sqrt::{Rounded, sqrt};
use methods::progress::one_if;

#[repr(C)]
#[derive(Clone, Copy)]
pub struct Root {
    pub refusal: Status,
    pub value: f64,
    // 1 where it did, else 0.
    pub inexact: usize,
}

impl From<Result<Rounded, Refusal>> for Root {
    ghost from_gives = { λ answer given. given ≡ root answer };

    // Beside a refusal the value is +0.0 and the flag 0.
    fn from(answer: Result<Rounded, Refusal>) -> Root {
        let none = Rounded {
            value: 0.0,
            inexact: false,
        };
        let root = answer.unwrap_or(none);
        Root {
            refusal: Status::from(answer.and(Ok(()))),
            value: root.value,
            inexact: one_if(root.inexact),
        }
    }
}

#[unsafe(no_mangle)]
pub extern "C" fn millracer_sqrt(x: f64) -> Root
    ensures { result ≡ root (sqrt_call x) }
{
    Root::from(sqrt(x))
}
