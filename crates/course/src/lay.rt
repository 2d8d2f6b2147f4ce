// A seed becomes a course (document 01, "Lay"): attempts at a track, the ring where all are refused, then tiles and index.
ghost use Rattle.std.specs.Prelude.{◌≡◌, ◌<◌, IfSome, unwrap_or};
ghost use Rattle.rng.specs.Rules.SplitMix.{after};
ghost use Rattle.course.specs.Rules.Constants.{max_attempts};
ghost use Rattle.course.specs.Grader.Outcome.{lent, lent_to, left_by, outcome};
ghost use Rattle.course.specs.Rules.Lay.{ring_point, attempt_on};
ghost use Rattle.course.specs.Grader.LayCall.{lay_call, lay_on_call};
ghost use Rattle.course.specs.Rules.Checkpoints.{checkpoints_of};
ghost use Rattle.course.specs.Steps.Lay.{columns_of, SameColumns, InFront, tried_by, lay_by, tried_within, Ringed, OrRing};

use crate::checkpoints::Checkpoint;
use crate::constants::{LAID_LENGTH, MAX_ATTEMPTS, TAU, TRACK_RAD};
use crate::lent::LentColumns;
use crate::points::{LaidCourse, LayError};
use crate::tiles::TrackPoint;
use crate::walk_columns::WalkColumns;
use crate::{checkpoints, columns, points, track, trig, walk};
use rng::SplitMix64;

// An attempt with given checkpoints: the size of its track, which then stands in front, none where it is refused.
// Kept beside each call that is lent the columns of a walk: `SameColumns` tells those before it and after it, which no ghost field of the one
// struct can say. And kept as a number that is above 0: an `Option<NonZeroUsize>` would be made by a test that never fails, and be taken apart
// by `get` where the points are counted.
fn attempt(cs: &[Checkpoint; 12], cols: &mut WalkColumns) -> Option<usize>
    ensures same { SameColumns cols.old cols.new }
    ensures in_front { InFront (attempt_on cs.now) (columns_of cols.old) (columns_of cols.new) (unwrap_or result 0) }
    ensures some { IfSome result (λ n. 0 < n) }
{
    let len = walk::walk_round(cs, cols)?;
    let p = track::cut(cols, len)?;
    columns::shift(cols.beta, p.from, p.n);
    columns::shift(cols.x, p.from, p.n);
    columns::shift(cols.y, p.from, p.n);
    Some(p.n)
}

// An attempt with the next 24 draws.
fn try_generate(g: &mut SplitMix64, cols: &mut WalkColumns) -> Option<usize>
    ensures same { SameColumns cols.old cols.new }
    ensures in_front { InFront (attempt_on (checkpoints_of 12 g.old)) (columns_of cols.old) (columns_of cols.new)
        (unwrap_or result 0) }
    ensures some { IfSome result (λ n. 0 < n) }
    ensures rng_value { g.new ≡ after 24 g.old }
{
    let cs = checkpoints::checkpoints(g);
    attempt(&cs, cols)
}

// The first of a seed's attempts that is not refused, of so many.
// Kept as a loop: the closure of a `find_map` would draw and write through what it captures, and is no plainer, since the loop's invariant
// would then be told of the captured generator and columns.
fn first_attempt(attempts: u32, seed: u64, cols: &mut WalkColumns) -> Option<usize>
    ensures same { SameColumns cols.old cols.new }
    ensures in_front { InFront (tried_within attempts seed) (columns_of cols.old) (columns_of cols.new)
        (unwrap_or result 0) }
    ensures some { IfSome result (λ n. 0 < n) }
{
    let mut g = SplitMix64::from_seed(seed);
    for _k in 0..attempts {
        if let Some(n) = try_generate(&mut g, cols) {
            return Some(n);
        }
    }
    None
}

// What a course is laid from: a seed, with so many attempts, or checkpoints for the one attempt.
#[derive(Clone, Copy)]
enum Origin {
    Seed { attempts: u32, seed: u64 },
    Checkpoints([Checkpoint; 12]),
}

impl Origin {
    // The attempt that is not refused.
    fn attempt(&self, cols: &mut WalkColumns) -> Option<usize>
        ensures same { SameColumns cols.old cols.new }
        ensures in_front { InFront (tried_by self.now) (columns_of cols.old) (columns_of cols.new)
            (unwrap_or result 0) }
        ensures some { IfSome result (λ n. 0 < n) }
    {
        match self {
            Origin::Seed { attempts, seed } => first_attempt(*attempts, *seed, cols),
            Origin::Checkpoints(cs) => attempt(cs, cols),
        }
    }
}

// How many points the ring has.
const RING_COUNT: u32 = 100;

// Point i of the ring.
fn ring_point(i: u32) -> TrackPoint
    ensures { result ≡ ring_point i }
{
    let a = TAU * f64::from(i) / f64::from(RING_COUNT);
    let t = trig::sin_cos(a);
    TrackPoint {
        beta: a,
        x: TRACK_RAD * t.cos,
        y: TRACK_RAD * t.sin,
    }
}

// The ring's points stand in front.
// Kept by index: three `iter_mut`, zipped, are no plainer, and after such a loop over one column no proof knew what it holds (form's eight.rt).
fn ring_points(cols: &mut WalkColumns)
    ensures same { SameColumns cols.old cols.new }
    ensures ringed { Ringed (columns_of cols.old) (columns_of cols.new) }
{
    for i in 0..RING_COUNT {
        let p = ring_point(i);
        let k = i as usize;
        cols.beta[k] = p.beta;
        cols.x[k] = p.x;
        cols.y[k] = p.y;
    }
}

// How many points stand in front: those of the attempt that was made, the ring's where none was.
fn or_ring(made: Option<usize>, cols: &mut WalkColumns) -> usize
    ensures same { SameColumns cols.old cols.new }
    ensures points { OrRing made (columns_of cols.old) (columns_of cols.new) result }
{
    if let Some(n) = made {
        return n;
    }
    ring_points(cols);
    RING_COUNT as usize
}

// The course of a seed or of given checkpoints in columns.
// Kept as columns one by one, since the proof did not close: a struct of them that is handed on, by value or by `&mut` with its fields'
// names kept, is known at the return by the names and lengths of its columns alone, as at `lay` below.
fn lay_from(
    origin: &Origin,
    alpha: &mut [f64],
    beta: &mut [f64],
    x: &mut [f64],
    y: &mut [f64],
    tiles: &mut [f64],
    offsets: &mut [u32],
    list: &mut [u32],
) -> Result<LaidCourse, LayError>
    ensures { outcome result (lent alpha.new beta.new x.new y.new tiles.new offsets.new list.new)
        ≡ lay_by origin.now (lent alpha.old beta.old x.old y.old tiles.old offsets.old list.old) }
{
    points::room_check(LAID_LENGTH, alpha, beta, x, y, tiles, offsets)?;
    let mut walked = WalkColumns { alpha, beta, x, y };
    let made = origin.attempt(&mut walked);
    let n = or_ring(made, &mut walked);
    points::finish(
        LAID_LENGTH,
        made.is_none(),
        n,
        alpha,
        beta,
        x,
        y,
        tiles,
        offsets,
        list,
    )
}

// The course of a seed in the lent columns, with so many attempts.
#[tactic(auto, unfolding(crate::specs::Grader::LayCall::lay_call))]
pub fn lay_attempts(attempts: u32, seed: u64, cols: LentColumns<'_>) -> Result<LaidCourse, LayError>
    ensures { outcome result (left_by cols.exit) ≡ lay_call attempts seed (lent_to cols.entry) }
{
    let LentColumns {
        alpha,
        beta,
        x,
        y,
        tiles,
        offsets,
        list,
    } = cols;
    let origin = Origin::Seed { attempts, seed };
    lay_from(&origin, alpha, beta, x, y, tiles, offsets, list)
}

// The course of a seed in the lent columns.
// Kept beside `lay_attempts`, since the proof did not close: where `lay` hands its columns on to it, a proof knows the names and lengths of
// the columns at `lay`'s return, and not what they hold. So each of the three public calls takes its struct apart itself.
#[tactic(auto, unfolding(crate::specs::Grader::LayCall::lay_call, crate::specs::Rules::Constants::max_attempts))]
pub fn lay(seed: u64, cols: LentColumns<'_>) -> Result<LaidCourse, LayError>
    ensures { outcome result (left_by cols.exit) ≡ lay_call max_attempts seed (lent_to cols.entry) }
{
    let LentColumns {
        alpha,
        beta,
        x,
        y,
        tiles,
        offsets,
        list,
    } = cols;
    let attempts = MAX_ATTEMPTS;
    let origin = Origin::Seed { attempts, seed };
    lay_from(&origin, alpha, beta, x, y, tiles, offsets, list)
}

// The course of one attempt with given checkpoints in the lent columns, the ring where that attempt is refused. It lets
// the limit on the search be met on purpose.
#[tactic(auto, unfolding(crate::specs::Grader::LayCall::lay_on_call))]
pub fn lay_checkpoints(cs: [Checkpoint; 12], cols: LentColumns<'_>) -> Result<LaidCourse, LayError>
    ensures { outcome result (left_by cols.exit) ≡ lay_on_call cs (lent_to cols.entry) }
{
    let LentColumns {
        alpha,
        beta,
        x,
        y,
        tiles,
        offsets,
        list,
    } = cols;
    let origin = Origin::Checkpoints(cs);
    lay_from(&origin, alpha, beta, x, y, tiles, offsets, list)
}
