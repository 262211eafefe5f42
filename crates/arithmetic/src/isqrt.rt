// The whole part of the root of a whole number, and what its square leaves.
ghost use Rattle.std.specs.Prelude.{◌+◌, ◌*◌, ◌^◌, ◌≤◌, ◌<◌};
ghost use Rattle.arithmetic.specs.SqrtStages.{Remainder, Digits};

#[derive(Clone, Copy)]
pub struct Parts {
    pub root: u64,
    pub rest: u64,
}

impl Parts {
    // From the root of a number to the root of that number * b * b: twice as many digits, by one division.
    fn extend(self, b: u64) -> Parts
        requires { Digits self.root self.rest b }
        ensures { Remainder ((self.root * self.root + self.rest) * (b * b)) result.root result.rest }
    {
        let Parts { root: s, rest: d } = self;
        let n = d * b;
        let q = n / (2 * s);
        let u = (n % (2 * s)) * b;
        let r = s * b + q;
        let sq = q * q;
        if sq <= u {
            return Parts {
                root: r,
                rest: u - sq,
            };
        }
        Parts {
            root: r - 1,
            rest: u + (2 * r - 1) - sq,
        }
    }
}

// A guess at the root of a, within a part in a hundred: a straight line below 2^53, and another above.
fn line(a: u64) -> u64
    requires { a < 2 ^ 54 }
    ensures { (2 ^ 25 ≤ result) × (result < 2 ^ 28) }
{
    let h = a / 0x400_0000;
    let o = h / 0x800_0000;
    h * (427 - 125 * o) / 1024 + 39605282 + 16404923 * o
}

// The guess after two of Newton's steps. Nothing is proved of how good it is: `settle` makes any guess right.
fn guess(a: u64) -> u64
    requires { a < 2 ^ 54 }
    ensures { result < 2 ^ 27 }
{
    let s = line(a);
    let t = (s + a / s) / 2;
    ((t + a / t) / 2).min(0x7ff_ffff)
}

// The root of a, from any guess.
fn settle(a: u64, g: u64) -> Parts
    requires { (a < 2 ^ 54) × (g < 2 ^ 27) }
    ensures { Remainder a result.root result.rest }
{
    let mut s = g;
    while a < s * s {
        s -= 1;
    }
    let mut d = a - s * s;
    while 2 * s + 1 <= d {
        d -= 2 * s + 1;
        s += 1;
    }
    Parts { root: s, rest: d }
}

// The root of a * 2^54.
pub fn long_root(a: u64) -> Parts
    requires { (2 ^ 52 ≤ a) × (a < 2 ^ 54) }
    ensures { Remainder (a * 2 ^ 54) result.root result.rest }
{
    settle(a, guess(a)).extend(0x800_0000)
}
