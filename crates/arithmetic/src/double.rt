// Doubles as document 01's section 'Arithmetic' has them.
ghost use Rattle.std.specs.Prelude.{◌≡◌, cond};
ghost use Rattle.std.specs.Float.Ieee.{is_nan, eq};
ghost use Rattle.std.specs.Float.Ieee.Scale.{finite};
ghost use Rattle.arithmetic.specs.Double.{plus_zero, abs, max, min, square};

// 2^-52
pub const EPSILON: f64 = 2.220446049250313e-16;

// Neither infinite nor NaN: the difference from itself is then +0.0, and NaN otherwise. `<=` is one test of the machine, `==` two.
pub fn finite(x: f64) -> bool
    ensures { result ≡ finite x }
{
    x - x <= 0.0
}

// -0.0 becomes +0.0.
fn unsigned_zero(x: f64) -> f64
    ensures { result ≡ cond (eq x plus_zero) plus_zero x }
{
    if x == 0.0 { 0.0 } else { x }
}

pub fn abs(x: f64) -> f64
    ensures { result ≡ abs x }
{
    let y = unsigned_zero(x);
    if y < 0.0 { -y } else { y }
}

// u, or v where u is NaN.
fn number_or(u: f64, v: f64) -> f64
    ensures { result ≡ cond (is_nan u) v u }
{
    if u != u {
        return v;
    }
    u
}

pub fn max(u: f64, v: f64) -> f64
    ensures { result ≡ max u v }
{
    if v > u {
        return v;
    }
    number_or(u, v)
}

pub fn min(u: f64, v: f64) -> f64
    ensures { result ≡ min u v }
{
    if v < u {
        return v;
    }
    number_or(u, v)
}

// powi(2)
pub fn square(v: f64) -> f64
    ensures { result ≡ square v }
{
    v * v
}
