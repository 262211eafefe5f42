// Eight bytes for each double, as a list of doubles. No double is made to test one.
ghost use Rattle.std.specs.Prelude.{◌≡◌, get_or};
ghost use Rattle.std.specs.Float.{nan};
ghost use Rattle.std.specs.Float.Ieee.Scale.{finite};
ghost use Rattle.encoding.specs.Bytes.{doubles};

use crate::checks::finite_pattern;
use crate::read::read_number;
use matrix::doubles::Doubles;

#[derive(Clone, Copy)]
pub struct DoubleBytes<'a> {
    pub bytes: &'a [u8],
}

impl<'a> Doubles for DoubleBytes<'a> {
    ghost doubles = { λ b. doubles b.bytes.now };

    ghost can_get = { λ b k. finite (get_or (doubles b.bytes.now) k nan) };

    fn count(self) -> usize {
        self.bytes.len() / 8
    }

    fn get(self, k: usize) -> f64 {
        f64::from_bits(read_number(self.bytes, 8 * k))
    }

    fn finite_at(self, k: usize) -> bool {
        finite_pattern(read_number(self.bytes, 8 * k))
    }
}
