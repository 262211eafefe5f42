// Lists of doubles, however they are held: a slice here, bytes in crates/encoding.
ghost use Rattle.std.specs.Prelude.{◌≡◌, Bool, true, List, ℕ, ◌<◌, length, get_or, Float};
ghost use Rattle.std.specs.Float.{nan};
ghost use Rattle.std.specs.Float.Ieee.Scale.{finite};
ghost use Rattle.arithmetic.specs.All.{all};
ghost use Rattle.matrix.specs.Checks.{first_not_finite};

use crate::checks::list_finite;
use arithmetic::double::finite;

pub trait Doubles: Copy {
    ghost doubles: { Self → List Float };

    // Which entries can be read: of bytes the finite ones.
    ghost can_get: { Self → ℕ → Bool };

    fn count(self) -> usize
        ensures { result ≡ length (doubles self) };

    fn get(self, k: usize) -> f64
        requires within { k < length (doubles self) }
        requires allowed { can_get self k ≡ true }
        ensures { result ≡ get_or (doubles self) k nan };

    fn finite_at(self, k: usize) -> bool
        requires { k < length (doubles self) }
        ensures { result ≡ finite (get_or (doubles self) k nan) };

    // The position of the first that is not finite, or the count, as its definition answers: no Option, which would be one case more.
    fn first_not_finite(self) -> usize
        ensures { result ≡ first_not_finite (doubles self) }
    {
        let count = self.count();
        (0..count).position(|k| !self.finite_at(k)).unwrap_or(count)
    }

    fn all_finite(self) -> bool
        ensures { result ≡ all 0 (length (doubles self)) (λ i. finite (get_or (doubles self) i nan)) }
    {
        self.first_not_finite() == self.count()
    }
}

impl Doubles for &[f64] {
    ghost doubles = { λ l. l.now };

    ghost can_get = { λ l k. true };

    fn count(self) -> usize {
        self.len()
    }

    fn get(self, k: usize) -> f64 {
        self[k]
    }

    fn finite_at(self, k: usize) -> bool {
        finite(self[k])
    }

    // All are tested first, since that takes several at once.
    fn first_not_finite(self) -> usize {
        let count = self.count();
        if self.all_finite() {
            return count;
        }
        self.iter().position(|x| !finite(*x)).unwrap_or(count)
    }

    fn all_finite(self) -> bool {
        list_finite(self, 0)
    }
}
