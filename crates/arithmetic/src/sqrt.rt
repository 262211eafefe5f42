// The square root of a double: squareRoot of IEEE 754-2019, whose clauses stand in parentheses, in the order of its own text.
// Negative numbers, infinity, NaN and zeros come first; then the root is formed as though with unlimited precision, then rounded.
// Beside the root stands the inexact flag (7.6): whether rounding changed it.
ghost use Rattle.std.specs.Prelude.{◌≡◌, ◌^◌, ◌≤◌, ◌<◌, T};
ghost use Rattle.std.specs.Float.Ieee.Positive.{positive};
ghost use Rattle.arithmetic.specs.Sqrt.{magnitude, nearest_to, sqrt, flagged, sqrt_checks, sqrt_call};
ghost use Rattle.arithmetic.specs.Nearest.{NotNegative};
ghost use Rattle.arithmetic.specs.SqrtStages.{Significand};
ghost use Rattle.arithmetic.specs.InfinitelyPrecise.{WholeRoot};

use crate::double::finite;
use crate::isqrt::long_root;
use crate::refusal::Refusal;

// A positive number: significand * 2^exponent units of 2^-1074.
#[derive(Clone, Copy)]
struct Number {
    significand: u64,
    exponent: u64,
}

// The intermediate result, correct to infinite precision (5.1): whole * 2^scale units of 2^-1074, and less than one more 2^scale of them
// where something was cut off.
#[derive(Clone, Copy)]
struct IntermediateResult {
    whole: u64,
    cut: bool,
    scale: u64,
}

// A positive double, by its biased exponent and its trailing significand (3.4).
fn decoded(x: f64) -> Number
    requires { T (positive x) }
    ensures { Significand (magnitude x) result.significand result.exponent }
{
    let b = f64::to_bits(x);
    let biased = b / 0x10_0000_0000_0000;
    let trailing = b % 0x10_0000_0000_0000;
    if biased == 0 {
        return Number {
            significand: trailing,
            exponent: 0,
        };
    }
    Number {
        significand: trailing + 0x10_0000_0000_0000,
        exponent: biased - 1,
    }
}

// The root as though with unlimited precision (5.1). In units of 2^-1074 it is the root of significand * 2^(exponent + 1074). Counting
// its leading zeros brings the significand, a subnormal's too, to 53 digits, and 54 more follow it under the whole root. Half of the
// power of two that is left is the scale; an odd power's other factor stays under the root.
fn infinitely_precise_root(x: f64) -> IntermediateResult
    requires { T (positive x) }
    ensures { WholeRoot x result.whole result.cut result.scale }
{
    let n = decoded(x);
    let shift = u64::leading_zeros(n.significand) as u64 - 11;
    let power = n.exponent + 1020 - shift;
    let parts = long_root((n.significand << shift) * (1 + power % 2));
    IntermediateResult {
        whole: parts.root,
        cut: 0 < parts.rest,
        scale: power / 2,
    }
}

// roundTiesToEven (4.3.1), to 53 digits; `half` is the one after them. Where something was cut off, it is no tie.
fn round_ties_to_even(r: IntermediateResult) -> f64
    requires { (2 ^ 53 ≤ r.whole) × (r.whole < 2 ^ 54) × (r.scale < 2000) }
    ensures { result ≡ nearest_to r.whole r.cut r.scale }
{
    let kept = r.whole / 2;
    let half = r.whole % 2;
    let tie = half * (kept % 2);
    let up = if r.cut { half } else { tie };
    f64::from_bits((r.scale + 1) * 0x10_0000_0000_0000 + (kept + up))
}

// A root, and whether rounding changed it.
#[derive(Clone, Copy)]
pub struct Rounded {
    pub value: f64,
    pub inexact: bool,
}

// In one line, where a literal takes four.
impl Rounded {
    fn of(value: f64, inexact: bool) -> Rounded
        ensures { result ≡ record { value = value; inexact = inexact } }
    {
        Rounded { value, inexact }
    }
}

// The root of a number that is not negative. Where nothing was cut off, the whole part is even, so its half is a double's significand and
// rounding changes nothing.
fn root(x: f64) -> Rounded
    requires { NotNegative x }
    ensures { result ≡ flagged x }
{
    if x == 0.0 {
        return Rounded::of(x, false); // squareRoot(-0) is -0 (6.3)
    }
    let r = infinitely_precise_root(x);
    Rounded::of(round_ties_to_even(r), r.cut)
}

// The root inside a run.
pub fn sqrt_flagged(x: f64) -> Rounded
    ensures { result ≡ flagged x }
{
    if x < 0.0 {
        return Rounded::of(0.0 / 0.0, false); // an invalid operation: NaN (7.2)
    }
    if !(x < 1.0 / 0.0) {
        return Rounded::of(x, false); // infinity (6.1), NaN (6.2)
    }
    root(x)
}

// .. where the flag is not asked for.
pub fn sqrt_unchecked(x: f64) -> f64
    ensures { result ≡ sqrt x }
{
    let r = sqrt_flagged(x);
    r.value
}

// 7, then 9 at step 0.
fn check_operand(x: f64) -> Result<(), Refusal>
    ensures { result ≡ sqrt_checks x }
{
    if !finite(x) {
        return Err(Refusal::NotFinite { row: 0, column: 0 });
    }
    if x < 0.0 {
        return Err(Refusal::StoredNotFinite { step: 0 });
    }
    Ok(())
}

// The root as a call of its own.
pub fn sqrt(x: f64) -> Result<Rounded, Refusal>
    ensures { result ≡ sqrt_call x }
{
    check_operand(x)?;
    Ok(root(x))
}
