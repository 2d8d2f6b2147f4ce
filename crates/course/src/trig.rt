// The stand-ins for sine, cosine and atan2 (document 01, "Stand-ins"). The public calls refuse by
// cause 8; what the course itself uses takes any float and is not public.
ghost use Rattle.std.specs.Prelude.{◌≡◌, ◌^◌, true, false, T, pos};
ghost use Rattle.std.specs.Result.{result_map_both};
ghost use Rattle.std.specs.Float.{fin};
ghost use Rattle.std.specs.Float.Ieee.{lt, to_unsigned};
ghost use Rattle.course.specs.Rules.Trig.{sine_poly, cosine_poly, atan_poly, floor, whole_below, turns_of, sin_cos_of, arc, arc_of, ratio_of, steep_of, leftward, downward, direction_of, atan2_of};
ghost use Rattle.course.specs.Grader.Angle.{sine_call, cosine_call, atan2_call};
ghost use Rattle.course.specs.Steps.Numbers.{Bounded, whole_at, turns_at, OfAngle, sin_cos_as};

use crate::cause::Cause;
use crate::constants::{HALF_PI, PI};
use crate::numeric;
use std::f64::consts::FRAC_PI_4;

const S3: f64 = -1.0 / 6.0;

const S5: f64 = 1.0 / 120.0;

const S7: f64 = -1.0 / 5040.0;

const S9: f64 = 1.0 / 362880.0;

const S11: f64 = -1.0 / 39916800.0;

const S13: f64 = 1.0 / 6227020800.0;

const S15: f64 = -1.0 / 1307674368000.0;

const C2: f64 = -1.0 / 2.0;

const C4: f64 = 1.0 / 24.0;

const C6: f64 = -1.0 / 720.0;

const C8: f64 = 1.0 / 40320.0;

const C10: f64 = -1.0 / 3628800.0;

const C12: f64 = 1.0 / 479001600.0;

const C14: f64 = -1.0 / 87178291200.0;

const C16: f64 = 1.0 / 20922789888000.0;

// A whole number as a float, and modulo 4.
#[derive(Clone, Copy)]
pub(crate) struct Turns {
    k: f64,
    quarter: u64,
}

// A whole number, and the same as a float.
#[derive(Clone, Copy)]
struct Whole {
    n: u64,
    f: f64,
}

// The cosine and the sine of one angle.
#[derive(Clone, Copy)]
pub(crate) struct SinCos {
    pub cos: f64,
    pub sin: f64,
}

// The sine of r by its series, |r| about pi/4 at most.
fn sine_poly(r: f64) -> f64
    ensures { result ≡ sine_poly r }
{
    let z = r * r;
    let p = ((((((S15 * z + S13) * z + S11) * z + S9) * z + S7) * z + S5) * z + S3) * z + 1.0;
    r * p
}

// The cosine of r by its series, |r| about pi/4 at most.
fn cosine_poly(r: f64) -> f64
    ensures { result ≡ cosine_poly r }
{
    let z = r * r;
    (((((((C16 * z + C14) * z + C12) * z + C10) * z + C8) * z + C6) * z + C4) * z + C2) * z + 1.0
}

// The arc tangent of w by its series, over w. It is told in four parts, each short enough to be read.
fn atan_poly(w: f64) -> f64
    ensures { result ≡ atan_poly w }
{
    let z = w * w;
    let a = ((((1.0 / 41.0) * z + -1.0 / 39.0) * z + 1.0 / 37.0) * z + -1.0 / 35.0) * z
        + 1.0 / 33.0;
    let b = ((((a * z + -1.0 / 31.0) * z + 1.0 / 29.0) * z + -1.0 / 27.0) * z + 1.0 / 25.0) * z
        + -1.0 / 23.0;
    let c = ((((b * z + 1.0 / 21.0) * z + -1.0 / 19.0) * z + 1.0 / 17.0) * z + -1.0 / 15.0) * z
        + 1.0 / 13.0;
    let d = ((((c * z + -1.0 / 11.0) * z + 1.0 / 9.0) * z + -1.0 / 7.0) * z + 1.0 / 5.0) * z
        + -1.0 / 3.0;
    d * z + 1.0
}

// v cut to a whole number, v above -1 and below 2^64. The small ones are told by comparing: a processor foresees a comparison
// and need not wait for v.
// Kept as five tests of one shape: a loop over the numbers from 4 down is no plainer, since it would convert each, and its invariant would say what
// the tests show. Joining tests here and in `near_whole`, `quarter_turns_from` and `angle_of` was tried, and lay was 3 to 4 % slower.
fn whole_part(v: f64) -> Whole
    requires { T (lt (fin true 1 (pos 0)) v) × T (lt v (fin false 1 (pos 64))) }
    ensures { result ≡ whole_at (to_unsigned 64 v) }
{
    if v >= 5.0 {
        let n = std::num::truncating_f64_to_u64(v);
        let f = std::num::nearest_u64_to_f64(n);
        return Whole { n, f };
    }
    if v >= 4.0 {
        return Whole { n: 4, f: 4.0 };
    }
    if v >= 3.0 {
        return Whole { n: 3, f: 3.0 };
    }
    if v >= 2.0 {
        return Whole { n: 2, f: 2.0 };
    }
    if v >= 1.0 {
        return Whole { n: 1, f: 1.0 };
    }
    Whole { n: 0, f: 0.0 }
}

// The largest whole number not above v, |v| at most 2^52.
fn near_whole(v: f64) -> Turns
    requires { Bounded v (2 ^ 52) }
    ensures { result ≡ turns_at (floor v) }
{
    if v >= 0.0 {
        let w = whole_part(v);
        return Turns {
            k: w.f,
            quarter: w.n % 4,
        };
    }
    let x = -v;
    let w = whole_part(x);
    let n = w.n;
    let f = w.f;
    if f < x {
        let g = std::num::nearest_u64_to_f64(n + 1);
        return Turns {
            k: -g,
            quarter: 3 - n % 4,
        };
    }
    Turns {
        k: -f,
        quarter: (4 - n % 4) % 4,
    }
}

// The same for any float: 0 beyond 2^52.
fn whole_below(v: f64) -> Turns
    ensures { result ≡ turns_at (whole_below v) }
{
    if numeric::inside(v, 4503599627370496.0) {
        return near_whole(v);
    }
    Turns { k: 0.0, quarter: 0 }
}

// The quarter turns in a.
pub(crate) fn quarter_turns(a: f64) -> Turns
    ensures { result ≡ turns_at (turns_of a) }
{
    whole_below(a / HALF_PI + 0.5)
}

// The same, with the quarter turns t of another angle tried first: those of a heading are mostly those of the step before,
// and a processor foresees a comparison and need not wait for a.
pub(crate) fn quarter_turns_from(a: f64, t: Turns) -> Turns
    requires { OfAngle t }
    ensures { result ≡ turns_at (turns_of a) }
{
    let v = a / HALF_PI + 0.5;
    let k = t.k;
    if k <= v {
        if v < k + 1.0 {
            return t;
        }
    }
    whole_below(v)
}

// Cosine and sine of a, from the quarter turns in it. It is short enough to be compiled in place, where both results stay in
// registers.
// Kept as an angle and its turns, here, in `quarter_turns_from` and in `step`: a struct of both with a ghost field of what is true of them is
// no plainer, since `quarter_turns_from` is given the turns of one angle beside another, and `step` has its angle in the walk already.
pub(crate) fn turned(a: f64, t: Turns) -> SinCos
    requires { t ≡ turns_at (turns_of a) }
    ensures { sin_cos_as result ≡ sin_cos_of a }
{
    let r = a - t.k * HALF_PI;
    let s = sine_poly(r);
    let c = cosine_poly(r);
    match t.quarter {
        0 => SinCos { cos: c, sin: s },
        1 => SinCos { cos: -s, sin: c },
        2 => SinCos { cos: -c, sin: -s },
        _ => SinCos { cos: s, sin: -c },
    }
}

// Cosine and sine of a.
pub(crate) fn sin_cos(a: f64) -> SinCos
    ensures { sin_cos_as result ≡ sin_cos_of a }
{
    turned(a, quarter_turns(a))
}

// Cosine and sine of a, |a| at most 16, else cause 8. It is compiled into the two that call it, where both results stay in
// registers.
#[inline(always)]
fn checked_sin_cos(a: f64) -> Result<SinCos, Cause>
    ensures cosine { result_map_both (λ t. t.cos) (λ e. e) result ≡ cosine_call a }
    ensures sine { result_map_both (λ t. t.sin) (λ e. e) result ≡ sine_call a }
{
    if numeric::inside(a, 16.0) {
        return Ok(sin_cos(a));
    }
    Err(Cause::Range)
}

// The sine of a, |a| at most 16.
// Kept beside `cosine`: one function that is told the part would be as long, and document 01 gives each its call.
pub fn sine(a: f64) -> Result<f64, Cause>
    ensures { result ≡ sine_call a }
{
    checked_sin_cos(a).map(|t| t.sin)
}

// The cosine of a, |a| at most 16.
pub fn cosine(a: f64) -> Result<f64, Cause>
    ensures { result ≡ cosine_call a }
{
    checked_sin_cos(a).map(|t| t.cos)
}

// base + w * p, p the series of the arc tangent of w.
#[tactic(auto, unfolding(crate::specs::Rules::Trig::arc))]
fn arc_from(base: f64, w: f64) -> f64
    ensures { result ≡ arc base w }
{
    base + w * atan_poly(w)
}

// The arc tangent of t, 0 to 1.
fn arc_tangent(t: f64) -> f64
    ensures { result ≡ arc_of t }
{
    if t > 0.41421356237309503 {
        return arc_from(FRAC_PI_4, (t - 1.0) / (t + 1.0));
    }
    arc_from(0.0, t)
}

// The smaller over the larger of two magnitudes.
#[tactic(auto, unfolding(crate::specs::Rules::Trig::ratio_of))]
fn ratio(ay: f64, ax: f64) -> f64
    ensures { result ≡ ratio_of ay ax }
{
    if ay > ax {
        return ax / ay;
    }
    ay / ax
}

// The angle A in the half where |y| > |x|.
fn steepened(ay: f64, ax: f64, a: f64) -> f64
    ensures { result ≡ steep_of ay ax a }
{
    if ay > ax {
        return HALF_PI - a;
    }
    a
}

// The angle A in the half where x < 0.
fn reflected(x: f64, a: f64) -> f64
    ensures { result ≡ leftward x a }
{
    if x < 0.0 {
        return PI - a;
    }
    a
}

// The angle A in the half where y < 0.
fn signed(y: f64, a: f64) -> f64
    ensures { result ≡ downward y a }
{
    if y < 0.0 {
        return -a;
    }
    a
}

// The angle of (x, y), not both zero.
#[tactic(auto, unfolding(crate::specs::Rules::Trig::direction_of))]
fn direction(y: f64, x: f64) -> f64
    ensures { result ≡ direction_of y x }
{
    let ay = numeric::abs(y);
    let ax = numeric::abs(x);
    let a = arc_tangent(ratio(ay, ax));
    signed(y, reflected(x, steepened(ay, ax, a)))
}

// The angle of (x, y), 0 if both are zero.
// Kept as two tests, one in the other, here and in `quarter_turns_from`: with both pairs joined by `&&`, and `direction` called once, lay was
// 5 % slower (tried).
pub(crate) fn angle_of(y: f64, x: f64) -> f64
    ensures { result ≡ atan2_of y x }
{
    if y == 0.0 {
        if x == 0.0 {
            return 0.0;
        }
        return direction(y, x);
    }
    direction(y, x)
}

// The angle of (x, y), each at most 1,000,000 in size.
pub fn atan2(y: f64, x: f64) -> Result<f64, Cause>
    ensures { result ≡ atan2_call y x }
{
    if numeric::inside(y, 1000000.0) & numeric::inside(x, 1000000.0) {
        return Ok(angle_of(y, x));
    }
    Err(Cause::Range)
}
