// From the walk's columns to a track: the part between the last two passes of the start (document 01, "Lay": `try_generate`).
ghost use Rattle.std.specs.Prelude.{◌≡◌, ◌+◌, ◌<◌, ◌≤◌, List, length, IfSome};
ghost use Rattle.course.specs.Rules.Lengths.{step_limit};
ghost use Rattle.course.specs.Rules.Track.{passes_at, last_pass, glued_of};
ghost use Rattle.course.specs.Steps.Lay.{columns_of, Front, Cut};
ghost use Rattle.course.specs.Rules.Step.{TrackStep};

use crate::constants::{TAU, TRACK_DETAIL_STEP};
use crate::walk_columns::WalkColumns;
use crate::{root, trig};

const START_ALPHA: f64 = TAU * -0.5 / 12.0;

// A part of the columns: n entries from number `from` on.
#[derive(Clone, Copy)]
pub(crate) struct Part {
    pub from: usize,
    pub n: usize,
}

// Whether the angles pass through the start at i.
#[tactic(auto, using(crate::proofs::Literals::literals), unfolding(crate::specs::Rules::Track::passes_at))]
fn passes_at(alpha: &[f64], i: usize) -> bool
    requires { (0 < i) × (i < length alpha.now) }
    ensures { result ≡ passes_at alpha.now i }
{
    alpha[i] > START_ALPHA && alpha[i - 1] <= START_ALPHA
}

// The greatest number from 1 to n at which the angles pass through the start.
// Kept as `1..n + 1`, since the proof did not close: of `(1..=n).rfind` the check alone did not find that the closure is called within its
// bounds; a proof by hand was not written.
fn last_pass(alpha: &[f64], n: usize) -> Option<usize>
    requires { n < length alpha.now }
    ensures value { result ≡ last_pass alpha.now n }
    ensures bounds { IfSome result (λ i. (0 < i) × (i ≤ n)) }
{
    (1..n + 1).rfind(|i| passes_at(alpha, *i))
}

// Whether the track's ends meet: those of its first point, with heading beta, and its last.
fn well_glued(beta: f64, x0: f64, y0: f64, x1: f64, y1: f64) -> bool
    ensures { result ≡ glued_of beta x0 y0 x1 y1 }
{
    let t = trig::sin_cos(beta);
    let p = t.cos * (x0 - x1);
    let q = t.sin * (y0 - y1);
    !(root::sqrt(p * p + q * q) > TRACK_DETAIL_STEP)
}

// The part of a walk of `len` steps that is its track.
pub(crate) fn cut(cols: &WalkColumns, len: usize) -> Option<Part>
    requires { (0 < len) × (len ≤ step_limit) }
    ensures cut { (ps : List TrackStep)
        → length ps ≡ len
        → Front ps (columns_of cols.now)
        → Cut ps result }
    ensures n_bound { IfSome result (λ p. p.from + p.n ≤ len) }
{
    let i2 = last_pass(cols.alpha, len - 1)?;
    let i1 = last_pass(cols.alpha, i2 - 1)?;
    let n = i2 - 1 - i1;
    if n == 0 {
        return None;
    }
    let e = i2 - 2;
    if well_glued(cols.beta[i1], cols.x[i1], cols.y[i1], cols.x[e], cols.y[e]) {
        return Some(Part { from: i1, n });
    }
    None
}
