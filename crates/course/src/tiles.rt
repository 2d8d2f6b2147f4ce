// The quads of a course's tiles (document 01, "Tiles and index").
ghost use Rattle.std.specs.Prelude.{◌≡◌, ◌+◌, ◌-◌, ◌*◌, ◌<◌, ◌≤◌, ◌++◌, length, drop};
ghost use Rattle.course.specs.Rules.Tiles.{point_at, points_of, before_of, eight, tile_of, tiles_to};
ghost use Rattle.course.specs.Steps.Tiles.{puts, edges_at, quad_between};

use crate::constants::TRACK_WIDTH;
use crate::trig;

// A point of the track, and the direction there.
#[derive(Clone, Copy, Default)]
pub struct TrackPoint {
    pub beta: f64,
    pub x: f64,
    pub y: f64,
}

// The points that three columns begin with.
// Kept with a count beside the slices: a host lends columns that may be longer than the count, and lay's own are. Cut to the count, the three
// would still carry three equal lengths as ghost facts.
#[derive(Clone, Copy)]
pub(crate) struct PointColumns<'a> {
    pub beta: &'a [f64],
    pub x: &'a [f64],
    pub y: &'a [f64],
    pub count: usize,
    ghost beta_long: { count ≤ length beta.now },
    ghost x_long: { count ≤ length x.now },
    ghost y_long: { count ≤ length y.now },
}

impl PointColumns<'_> {
    // Point i.
    #[tactic(auto, unfolding(crate::specs::Rules::Tiles::point_at))]
    pub(crate) fn point_at(&self, i: usize) -> TrackPoint
        requires { i < self.now.count }
        ensures { result ≡ point_at self.now.beta.now self.now.x.now self.now.y.now i }
    {
        TrackPoint {
            beta: self.beta[i],
            x: self.x[i],
            y: self.y[i],
        }
    }
}

// The two edges of the track at a point.
#[derive(Clone, Copy)]
struct Edges {
    left: [f64; 2],
    right: [f64; 2],
}

// The edges of the track at p.
fn edges_at(p: TrackPoint) -> Edges
    ensures { result ≡ edges_at p }
{
    let t = trig::sin_cos(p.beta);
    let left = [p.x - TRACK_WIDTH * t.cos, p.y - TRACK_WIDTH * t.sin];
    let right = [p.x + TRACK_WIDTH * t.cos, p.y + TRACK_WIDTH * t.sin];
    Edges { left, right }
}

// The tile from the edges e of a point back to the edges f of the point before.
#[tactic(auto, unfolding(crate::specs::Steps::Tiles::quad_between))]
fn tile_quad(e: Edges, f: Edges) -> [[f64; 2]; 4]
    ensures { result ≡ quad_between e f }
{
    let Edges { left: a, right: b } = e;
    let Edges { left: d, right: c } = f;
    [a, b, c, d]
}

// The number of the point before point i of n, round the course.
#[tactic(auto, unfolding(crate::specs::Rules::Tiles::before_of))]
pub(crate) fn before(i: usize, n: usize) -> usize
    requires { i < n }
    ensures value { result ≡ before_of n i }
    ensures upper_bound { result < n }
{
    if i == 0 {
        return n - 1;
    }
    i - 1
}

// The quad of a tile's eight numbers.
// Kept apart from the cut of the eight out of a column, which stands in rect.rt and in run's touch.rt: a public function of the project has no
// `requires`, so one that is told a column and a tile would answer an Option, for callers that know that the tile is there.
#[tactic(auto, unfolding(crate::specs::Rules::Tiles::tile_of))]
pub fn read_quad(numbers: &[f64; 8]) -> [[f64; 2]; 4]
    ensures { result ≡ tile_of numbers.now 0 }
{
    let [ax, ay, bx, by, cx, cy, dx, dy] = *numbers;
    [[ax, ay], [bx, by], [cx, cy], [dx, dy]]
}

// The quad's eight numbers stand from number `at` on.
// Kept with each number named, as `read_quad` has them: after `as_flattened` it did not prove that each corner of q has two numbers.
pub(crate) fn put_quad(tiles: &mut [f64], at: usize, q: [[f64; 2]; 4])
    requires { at + 8 ≤ length tiles.old }
    ensures { tiles.new ≡ puts (eight q) at tiles.old }
{
    let [[ax, ay], [bx, by], [cx, cy], [dx, dy]] = q;
    tiles[at..at + 8].copy_from_slice(&[ax, ay, bx, by, cx, cy, dx, dy]);
}

// The tiles of the points. A point's edges are worked out once, and kept for the tile after.
pub(crate) fn write_tiles(points: &PointColumns, tiles: &mut [f64])
    requires { points.now.count * 8 ≤ length tiles.old }
    ensures { tiles.new
        ≡ tiles_to (points_of points.now.beta.now points.now.x.now points.now.y.now points.now.count) points.now.count
        ++ drop (points.now.count * 8) tiles.old }
{
    let n = points.count;
    if n == 0 {
        return;
    }
    // Kept as a count of places: three columns zipped would be taken apart and put together again as a point.
    let mut last = edges_at(points.point_at(n - 1));
    for i in 0..n {
        let e = edges_at(points.point_at(i));
        put_quad(tiles, i * 8, tile_quad(e, last));
        last = e;
    }
}
