// A course from the caller's own points (document 01, "Beside the run": Points), and what lay shares with it.
// Kept with the given points as three columns and their count, here and in curbs.rt, since a struct of what is not tested yet is no plainer: it would
// stand beside `PointColumns`, which `given_check` makes once their lengths and numbers are, with the same fields.
ghost use Rattle.std.specs.Prelude.{◌≡◌, ◌+◌, ◌-◌, ◌*◌, ◌<◌, ◌≤◌, ◌++◌, length, take, drop, Err, MatchResult};
ghost use Rattle.course.specs.Rules.Lengths.{most_points};
ghost use Rattle.course.specs.Rules.Tiles.{points_of};
ghost use Rattle.course.specs.Grader.Cause.{check};
ghost use Rattle.course.specs.Grader.Outcome.{lent, lent_to, left_by, outcome, roomy_of, lay_into, error_number, error_entries};
ghost use Rattle.course.specs.Grader.Points.{good_point, all_good, given_of, count_cause, columns_cause, points_call};
ghost use Rattle.course.specs.declared.cause.Cause.TheVariants.{Length};
ghost use Rattle.course.specs.declared.points.LayError.TheVariants.{Refused};
ghost use Rattle.course.specs.Steps.Points.{Given};
ghost use Rattle.course.specs.Steps.Tiles.{Roomy};

use crate::cause::{Cause, Numbered};
use crate::constants::{MOST_POINTS, OFFSET_COUNT};
use crate::lent::LentColumns;
use crate::tiles::{PointColumns, TrackPoint};
use crate::{columns, constants, index, numeric, tiles};

// The values of a course's answer; zeros by `Default`, where there is none.
#[derive(Clone, Copy, Default)]
pub struct LaidCourse {
    // how many points and tiles the course has
    pub n: u32,
    // whether it is the ring
    pub fallback: bool,
    // the length of its index list
    pub entries: u32,
    // its first point
    pub first: TrackPoint,
}

// Why lay and points are refused.
#[derive(Clone, Copy, Debug, PartialEq, Eq)]
pub enum LayError {
    // cause 3, with the list length needed
    Short(u32),
    // another cause
    Refused(Cause),
}

impl From<Cause> for LayError {
    ghost from_gives = { λ cause error. error ≡ Refused cause };

    fn from(cause: Cause) -> LayError {
        LayError::Refused(cause)
    }
}

impl Numbered for LayError {
    ghost number = { error_number };

    #[tactic(auto, unfolding(crate::specs::Grader::Outcome::error_number))]
    fn number(self) -> u32 {
        match self {
            LayError::Short(_) => 3,
            LayError::Refused(cause) => cause.number(),
        }
    }
}

impl LayError {
    // The list length needed at cause 3, else 0.
    // Kept as a number, 0 for none: the C interface has one field for the length, with 0 where none is told.
    #[tactic(auto, unfolding(crate::specs::Grader::Outcome::error_entries))]
    pub fn entries(self) -> u32
        ensures { result ≡ error_entries self }
    {
        match self {
            LayError::Short(entries) => entries,
            LayError::Refused(_) => 0,
        }
    }
}

// Whether a given point is within its range (cause 8).
#[tactic(auto, using(crate::proofs::Literals::literals), unfolding(crate::specs::Grader::Points::good_point))]
fn good_point(p: TrackPoint) -> bool
    ensures { result ≡ good_point p }
{
    // `&`, here and in curbs.rt, where both sides are cheap and no branch is wanted
    numeric::inside(p.beta, 16.0) & (numeric::inside(p.x, 1000.0) & numeric::inside(p.y, 1000.0))
}

// Whether the points pass.
// Kept as places told to `point_at`: the points stand in three columns, and no one slice has them.
pub(crate) fn all_good(points: &PointColumns) -> bool
    ensures { result ≡ all_good (points_of points.now.beta.now points.now.x.now points.now.y.now points.now.count) }
{
    (0..points.count).all(|i| good_point(points.point_at(i)))
}

// Cause 2 of lent columns: each has its length, those of points m entries.
// Kept with m told, here, in `finish` and in curbs.rt: lay tells `LAID_LENGTH`, and points what `column_length` gives for its n. Both are 2,500 now, and document 02's
// order 8 parts them.
// Kept as columns one by one, since the proof did not close: after the struct is lent whole, by `&`, what its columns hold did not
// prove to be the same.
#[tactic(auto, unfolding(crate::specs::Grader::Cause::check, crate::specs::Grader::Outcome::roomy_of))]
pub(crate) fn room_check(
    m: usize,
    alpha: &[f64],
    beta: &[f64],
    x: &[f64],
    y: &[f64],
    tiles: &[f64],
    offsets: &[u32],
) -> Result<(), Cause>
    requires { m ≤ most_points }
    ensures { result
        ≡ check (roomy_of m alpha.now beta.now x.now y.now tiles.now
        offsets.now) Length }
{
    let columns = m <= alpha.len() && m <= beta.len() && m <= x.len() && m <= y.len();
    if columns && 8 * m <= tiles.len() && OFFSET_COUNT <= offsets.len() {
        return Ok(());
    }
    Err(Cause::Length)
}

// Cause 9 of given points: there is one, and there are not too many.
#[tactic(auto, unfolding(crate::specs::Grader::Points::count_cause))]
pub(crate) fn count_check(count: usize) -> Result<(), Cause>
    ensures { result ≡ count_cause count }
{
    if count == 0 || MOST_POINTS < count {
        return Err(Cause::Count);
    }
    Ok(())
}

// The given points, once their columns have the count given with them (cause 2) and each point is within its range (8).
#[tactic(auto, unfolding(crate::specs::Grader::Points::columns_cause, crate::specs::Grader::Points::given_of))]
pub(crate) fn given_check<'a>(
    beta: &'a [f64],
    x: &'a [f64],
    y: &'a [f64],
    count: usize,
) -> Result<PointColumns<'a>, Cause>
    ensures { MatchResult result (Given beta.now x.now y.now count) (λ e. Err e ≡ columns_cause beta.now x.now y.now count) }
{
    if beta.len() < count || x.len() < count || y.len() < count {
        return Err(Cause::Length);
    }
    let points = PointColumns { beta, x, y, count };
    if !all_good(&points) {
        return Err(Cause::Range);
    }
    Ok(points)
}

// Zeros, tiles and index, once the columns, of m points, begin with the n points.
// Kept as columns one by one, since the proof did not close: by value, columns that were taken out of a struct did not prove when they
// were lent in one again; by `&mut`, the proofs cover no read of one column while another of the same struct is lent, and tiles
// are written while the points are.
pub(crate) fn finish(
    m: usize,
    fallback: bool,
    n: usize,
    alpha: &mut [f64],
    beta: &mut [f64],
    x: &mut [f64],
    y: &mut [f64],
    tiles: &mut [f64],
    offsets: &mut [u32],
    list: &mut [u32],
) -> Result<LaidCourse, LayError>
    requires n_nonzero { (0 < n) × (n ≤ m) × (m ≤ most_points) }
    requires roomy { Roomy m alpha.old beta.old x.old y.old tiles.old offsets.old }
    ensures { outcome result (lent alpha.new beta.new x.new y.new tiles.new
        offsets.new list.new)
        ≡ lay_into m fallback (points_of beta.old x.old y.old n)
        (lent alpha.old beta.old x.old y.old tiles.old
        offsets.old list.old) }
{
    let points = PointColumns {
        beta,
        x,
        y,
        count: n,
    };
    let first = points.point_at(0);
    let used = n * 8;
    tiles::write_tiles(&points, tiles);
    columns::clear_from(beta, n, m);
    columns::clear_from(x, n, m);
    columns::clear_from(y, n, m);
    columns::clear_from(tiles, used, 8 * m);
    let built = index::build_index(&tiles[..used], n, alpha, offsets, list);
    // the scratch is 0 after a refusal too
    columns::clear_from(alpha, 0, m);
    let entries = built?;
    Ok(LaidCourse {
        n: n as u32,
        fallback,
        entries,
        first,
    })
}

// The given points go to the front of the lent columns.
fn copy_points(points: &PointColumns, beta: &mut [f64], x: &mut [f64], y: &mut [f64])
    requires { (points.now.count ≤ length beta.old) × (points.now.count ≤ length x.old)
        × (points.now.count ≤ length y.old) }
    ensures beta_after { beta.new ≡ take points.now.count points.now.beta.now ++ drop points.now.count beta.old }
    ensures x_after { x.new ≡ take points.now.count points.now.x.now ++ drop points.now.count x.old }
    ensures y_after { y.new ≡ take points.now.count points.now.y.now ++ drop points.now.count y.old }
{
    columns::copy_front(points.beta, points.count, beta);
    columns::copy_front(points.x, points.count, x);
    columns::copy_front(points.y, points.count, y);
}

// The course of the given points in the lent columns.
pub fn points(
    pbeta: &[f64],
    px: &[f64],
    py: &[f64],
    count: u32,
    cols: LentColumns<'_>,
) -> Result<LaidCourse, LayError>
    ensures { outcome result (left_by cols.exit)
        ≡ points_call pbeta.now px.now py.now count (lent_to cols.entry) }
{
    let LentColumns {
        alpha,
        beta,
        x,
        y,
        tiles,
        offsets,
        list,
    } = cols;
    let n = count as usize;
    let m = constants::column_length(n);
    count_check(n)?;
    room_check(m, alpha, beta, x, y, tiles, offsets)?;
    let points = given_check(pbeta, px, py, n)?;
    copy_points(&points, beta, x, y);
    finish(m, false, n, alpha, beta, x, y, tiles, offsets, list)
}
