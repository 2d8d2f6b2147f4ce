// Rust's methods on f64, at NaN and -0 too: own helpers, as document 01 names them.
ghost use Rattle.std.specs.Prelude.{◌≡◌, false, is_nan};
ghost use Rattle.course.specs.Rules.Numeric.{abs_of, min_of, max_of, least_of, greatest_of, clamp_of, signum_of, within};

use crate::constants::{MAX, MIN};

// x with its sign cleared.
// Kept beside `f64::abs`, as `signum` is beside `f64::signum`: document 01 names own helpers, "Rust's meaning at NaN and -0", which both of
// the library's have.
pub fn abs(x: f64) -> f64
    ensures { result ≡ abs_of x }
{
    x.abs()
}

// The lesser of two; the other where one is NaN.
// Kept beside `f64::min`: document 01 names an own helper with Rust's meaning at NaN and -0, and the library leaves it open which of 0
// and -0 it gives.
#[tactic(auto, unfolding(crate::specs::Rules::Numeric::min_of))]
pub fn min(a: f64, b: f64) -> f64
    ensures { result ≡ min_of a b }
{
    if a.is_nan() { b } else { lesser(a, b) }
}

// The greater of two; the other where one is NaN.
// Kept beside `f64::max`, which is no plainer: it is the other of the pair with `min`, whose rule at NaN and -0 the Rust has for both, and
// the library leaves it open which of 0 and -0 it gives.
#[tactic(auto, unfolding(crate::specs::Rules::Numeric::max_of))]
pub fn max(a: f64, b: f64) -> f64
    ensures { result ≡ max_of a b }
{
    if a.is_nan() { b } else { greater(a, b) }
}

// The least so far, and a number: the lesser, a NaN passed over.
// Kept as a pair with `greater`: one function that is passed the comparison would be a line as long as this one, and each call of it
// would write the comparison beside.
#[tactic(auto, unfolding(crate::specs::Rules::Numeric::min_of))]
fn lesser(least: f64, x: f64) -> f64
    requires { is_nan least ≡ false }
    ensures value { result ≡ min_of least x }
    ensures result_value { is_nan result ≡ false }
{
    if x < least { x } else { least }
}

// The greatest so far, and a number: the greater, a NaN passed over.
#[tactic(auto, unfolding(crate::specs::Rules::Numeric::max_of))]
fn greater(greatest: f64, x: f64) -> f64
    requires { is_nan greatest ≡ false }
    ensures value { result ≡ max_of greatest x }
    ensures result_value { is_nan result ≡ false }
{
    if greatest < x { x } else { greatest }
}

// The least of four numbers, a NaN passed over.
// Kept as a pair with `greatest`: document 01 folds both as the Rust does, each from its own end, and one function for both would be
// passed the end and the fold, which are all that it says. And kept as calls in one another, since the proof did not close:
// `[a, b, c, d].into_iter().fold(MAX, lesser)` asks for a proof that each of its calls may be made, which the check
// alone did not find; one by hand was not written.
pub fn least(a: f64, b: f64, c: f64, d: f64) -> f64
    ensures { result ≡ least_of a b c d }
{
    lesser(lesser(lesser(lesser(MAX, a), b), c), d)
}

// The greatest of four numbers, a NaN passed over.
pub fn greatest(a: f64, b: f64, c: f64, d: f64) -> f64
    ensures { result ≡ greatest_of a b c d }
{
    greater(greater(greater(greater(MIN, a), b), c), d)
}

// x, raised to lo, then lowered to hi.
// Kept beside `f64::clamp`, which asks that lo is at most hi: document 01 names an own helper.
#[tactic(auto, unfolding(crate::specs::Rules::Numeric::clamp_of))]
pub fn clamp(x: f64, lo: f64, hi: f64) -> f64
    ensures { result ≡ clamp_of x lo hi }
{
    let raised = if x < lo { lo } else { x };
    if hi < raised { hi } else { raised }
}

// 1 with the sign of x, also of 0 and -0; NaN gives NaN.
// Kept beside `f64::signum`: document 01 names an own helper.
pub fn signum(x: f64) -> f64
    ensures { result ≡ signum_of x }
{
    x.signum()
}

// Whether x is finite and from -bound to bound.
#[tactic(auto, unfolding(crate::specs::Rules::Numeric::within))]
pub fn inside(x: f64, bound: f64) -> bool
    ensures { result ≡ within bound x }
{
    -bound <= x && x <= bound
}
