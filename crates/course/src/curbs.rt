// Curbs of the caller's own points (document 01, "Beside the run": Curbs). A point's mark is worked out
// from the given angles whenever it is asked for, so no mark is taken after another was spread.
ghost use Rattle.std.specs.Prelude.{◌≡◌, ◌+◌, ◌-◌, ◌*◌, ◌<◌, ◌≤◌, length};
ghost use Rattle.course.specs.Rules.Lengths.{most_points, quad_numbers};
ghost use Rattle.course.specs.Rules.Tiles.{point_at, before_of};
ghost use Rattle.course.specs.Rules.Trig.{sin_cos_of};
ghost use Rattle.course.specs.Steps.Numbers.{sin_cos_as};
ghost use Rattle.course.specs.Grader.Cause.{check};
ghost use Rattle.course.specs.Grader.Curbs.{turn_at, steep_turn, one_way, mark_at, after_of, bordered, side_of, edge_of, curb_quad, white_of, edged, curb_room, curbs_call};
ghost use Rattle.course.specs.Steps.Tiles.{Curbed, CurbsTo};
ghost use Rattle.course.specs.declared.cause.Cause.TheVariants.{Length};

use crate::cause::Cause;
use crate::constants::{BORDER, TRACK_TURN_RATE, TRACK_WIDTH};
use crate::tiles::{PointColumns, TrackPoint};
use crate::trig::SinCos;
use crate::{columns, constants, numeric, points, tiles, trig};

const OUTER: f64 = TRACK_WIDTH + BORDER;

const STEEP: f64 = TRACK_TURN_RATE * 0.2;

// Whether a turn is steep enough for a curb.
#[tactic(auto, using(crate::proofs::Literals::literals), unfolding(crate::specs::Grader::Curbs::steep_turn))]
fn is_steep(d: f64) -> bool
    ensures { result ≡ steep_turn d }
{
    STEEP < numeric::abs(d)
}

// Whether four turns are steep and all to one side.
// Kept as tests written out, since the proof did not close: with the library's `all` three times over a slice of the four, what each closure answers
// for an item did not prove in a branch after another's.
// Steepness is tested by `&&`, which took 15 % fewer instructions than `&`, since few turns are steep.
#[tactic(auto, unfolding(crate::specs::Grader::Curbs::one_way))]
fn one_way(t: f64, u: f64, v: f64, w: f64) -> bool
    ensures { result ≡ one_way t u v w }
{
    let all = is_steep(t) && is_steep(u) && is_steep(v) && is_steep(w);
    let up = (0.0 < t) & ((0.0 < u) & ((0.0 < v) & (0.0 < w)));
    let down = (t < 0.0) & ((u < 0.0) & ((v < 0.0) & (w < 0.0)));
    all && (up | down)
}

// The number of the point after point i of n, round the course.
#[tactic(auto, unfolding(crate::specs::Grader::Curbs::after_of))]
fn after(i: usize, n: usize) -> usize
    requires { i < n }
    ensures value { result ≡ after_of n i }
    ensures upper_bound { result < n }
{
    if i + 1 < n {
        return i + 1;
    }
    0
}

// Kept: `i < self.count` is asked by each of these, since it is a plain bound of an index; a struct that has it would be made again for each neighbour.
impl PointColumns<'_> {
    // How far beta turns at point i.
    #[tactic(auto, unfolding(crate::specs::Grader::Curbs::turn_at))]
    fn turn_at(&self, i: usize) -> f64
        requires { i < self.now.count }
        ensures { result ≡ turn_at self.now.beta.now self.now.count i }
    {
        let j = tiles::before(i, self.count);
        self.beta[i] - self.beta[j]
    }

    // The mark of point i, from its turn and the three before it.
    #[tactic(auto, unfolding(crate::specs::Grader::Curbs::mark_at))]
    fn is_marked(&self, i: usize) -> bool
        requires { i < self.now.count }
        ensures { result ≡ mark_at self.now.beta.now self.now.count i }
    {
        let j = tiles::before(i, self.count);
        let k = tiles::before(j, self.count);
        let l = tiles::before(k, self.count);
        one_way(
            self.turn_at(i),
            self.turn_at(j),
            self.turn_at(k),
            self.turn_at(l),
        )
    }

    // Whether point i has a curb: it or one of the three after it is marked.
    #[tactic(auto, unfolding(crate::specs::Grader::Curbs::bordered))]
    fn is_bordered(&self, i: usize) -> bool
        requires { i < self.now.count }
        ensures { result ≡ bordered self.now.beta.now self.now.count i }
    {
        let j = after(i, self.count);
        let k = after(j, self.count);
        let l = after(k, self.count);
        let t = self.is_marked(i);
        let u = self.is_marked(j);
        let v = self.is_marked(k);
        let w = self.is_marked(l);
        t | (u | (v | w))
    }
}

// The outer side of the turn from q to p.
#[tactic(auto, using(crate::proofs::Literals::literals), unfolding(crate::specs::Grader::Curbs::side_of))]
fn side_of(p: TrackPoint, q: TrackPoint) -> f64
    ensures { result ≡ side_of p q }
{
    if q.beta - p.beta > 0.0 {
        return 1.0;
    }
    -1.0
}

// The corner at distance w from p, on side s; t is the cosine and sine at p.
fn edge_of(p: TrackPoint, t: SinCos, s: f64, w: f64) -> [f64; 2]
    requires { sin_cos_as t ≡ sin_cos_of p.beta }
    ensures { result ≡ edge_of p s w }
{
    [p.x + s * w * t.cos, p.y + s * w * t.sin]
}

// The curb from p back to q.
#[tactic(auto, using(crate::proofs::Literals::literals), unfolding(crate::specs::Grader::Curbs::curb_quad))]
fn curb_quad(p: TrackPoint, q: TrackPoint) -> [[f64; 2]; 4]
    ensures { result ≡ curb_quad p q }
{
    let s = side_of(p, q);
    let t = trig::sin_cos(p.beta);
    let u = trig::sin_cos(q.beta);
    let a = edge_of(p, t, s, TRACK_WIDTH);
    let b = edge_of(p, t, s, OUTER);
    let c = edge_of(q, u, s, OUTER);
    let d = edge_of(q, u, s, TRACK_WIDTH);
    [a, b, c, d]
}

// White and red in turn.
#[tactic(auto, unfolding(crate::specs::Grader::Curbs::white_of))]
fn white_of(i: usize) -> u8
    ensures { result ≡ white_of i }
{
    (1 - i % 2) as u8
}

// The curb of point i, if it has one, as number m; the count after it.
// Kept with the two columns apart: they go through this and `write_curbs` alone, and a struct of them, with two ghost fields for the room that is asked twice,
// would be taken apart again where the rest is cleared and where `curbs`, which a host lends them one by one, says what they hold.
fn put_curb(points: &PointColumns, i: usize, m: usize, quads: &mut [f64], white: &mut [u8]) -> usize
    requires i_in_bounds { (m ≤ i) × (i < points.now.count) }
    requires room { (points.now.count ≤ most_points) × (quad_numbers points.now.count ≤ length quads.old)
        × (points.now.count ≤ length white.old) }
    ensures { Curbed (bordered points.now.beta.now points.now.count i)
        (curb_quad (point_at points.now.beta.now points.now.x.now points.now.y.now i)
        (point_at points.now.beta.now points.now.x.now points.now.y.now (before_of points.now.count i)))
        (white_of i) m
        quads.old white.old result quads.new white.new }
{
    if !points.is_bordered(i) {
        return m;
    }
    let j = tiles::before(i, points.count);
    let c = curb_quad(points.point_at(i), points.point_at(j));
    tiles::put_quad(quads, m * 8, c);
    white[m] = white_of(i);
    m + 1
}

// The curbs of the points, in front of the lent columns; how many there are.
fn write_curbs(points: &PointColumns, quads: &mut [f64], white: &mut [u8]) -> usize
    requires { (points.now.count ≤ most_points) × (quad_numbers points.now.count ≤ length quads.old)
        × (points.now.count ≤ length white.old) }
    ensures { CurbsTo points.now.beta.now points.now.x.now points.now.y.now points.now.count points.now.count
        result quads.old white.old quads.new white.new }
{
    let mut m: usize = 0;
    // Kept as a count of places: a curb looks at the points before and after its own
    for i in 0..points.count {
        m = put_curb(points, i, m, quads, white);
    }
    m
}

// Cause 2 of lent columns: each has its length, for m curbs.
#[tactic(auto, unfolding(crate::specs::Grader::Cause::check, crate::specs::Grader::Curbs::curb_room))]
fn room_check(m: usize, quads: &[f64], white: &[u8]) -> Result<(), Cause>
    requires { m ≤ most_points }
    ensures { result ≡ check (curb_room m quads.now white.now) Length }
{
    if 8 * m <= quads.len() && m <= white.len() {
        return Ok(());
    }
    Err(Cause::Length)
}

// The curbs of the given points in the lent columns; how many there are.
pub fn curbs(
    pbeta: &[f64],
    px: &[f64],
    py: &[f64],
    count: u32,
    quads: &mut [f64],
    white: &mut [u8],
) -> Result<u32, Cause>
    ensures { edged result quads.new white.new
        ≡ curbs_call pbeta.now px.now py.now count quads.old
        white.old }
{
    let n = count as usize;
    let m = constants::column_length(n);
    points::count_check(n)?;
    room_check(m, quads, white)?;
    let points = points::given_check(pbeta, px, py, n)?;
    let found = write_curbs(&points, quads, white);
    columns::clear_from(quads, found * 8, 8 * m);
    white[found..m].fill(0);
    Ok(found as u32)
}
