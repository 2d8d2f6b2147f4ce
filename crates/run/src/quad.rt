// Quads of four corners: whether two of them overlap, a wheel's quad, and the cells of four wheels' boxes (document 01, "Touch").
ghost use Rattle.std.specs.Prelude.{◌≡◌, not, ◌||◌};
ghost use Rattle.course.specs.Rules.Tiles.{number_at};
ghost use Rattle.run.specs.Rules.Overlap.{apart_on, apart_by_edges, overlap_of};
ghost use Rattle.run.specs.Rules.Wheel.{placed, wheel_quad, box_cells};
ghost use Rattle.run.specs.Steps.Touch.{edge_normal, projected, span_on, spans_apart, first_side, beyond, apart_by_others, sixteen_cells};

use crate::dynamics::{SIZE, WHEEL_R};
use crate::state::Pose;
use course::constants::GRID_DIM;
use course::numeric::{greatest, least};
use course::rect::Rect;

const WHEEL_W: f64 = 14.0;

// A normal of the edge from a to b, as long as the edge.
fn normal(a: [f64; 2], b: [f64; 2]) -> [f64; 2]
    ensures { result ≡ edge_normal a b }
{
    [b[1] - a[1], a[0] - b[0]]
}

// The projection of a corner on an axis, times the axis's length.
fn projection(axis: [f64; 2], corner: [f64; 2]) -> f64
    ensures { result ≡ projected axis corner }
{
    axis[0] * corner[0] + axis[1] * corner[1]
}

// The least and the greatest projection of a quad on an axis.
#[derive(Clone, Copy)]
pub(crate) struct Span {
    pub low: f64,
    pub high: f64,
}

impl Span {
    // The projections of a quad's corners on an axis.
    #[tactic(auto, unfolding(crate::specs::Rules::Overlap::least_on, crate::specs::Rules::Overlap::greatest_on))]
    fn on(axis: [f64; 2], q: [[f64; 2]; 4]) -> Span
        ensures { result ≡ span_on axis q }
    {
        let a = projection(axis, q[0]);
        let b = projection(axis, q[1]);
        let c = projection(axis, q[2]);
        let d = projection(axis, q[3]);
        Span {
            low: least(a, b, c, d),
            high: greatest(a, b, c, d),
        }
    }

    // One of the two ends before the other begins.
    fn is_apart(self, other: Span) -> bool
        ensures { result ≡ spans_apart self other }
    {
        (self.high < other.low) | (other.high < self.low)
    }
}

// The quads lie apart on the axis.
#[tactic(auto, unfolding(crate::specs::Rules::Overlap::apart_on))]
fn apart_on(axis: [f64; 2], a: [[f64; 2]; 4], b: [[f64; 2]; 4]) -> bool
    ensures { result ≡ apart_on (number_at axis 0) (number_at axis 1) a b }
{
    Span::on(axis, a).is_apart(Span::on(axis, b))
}

// The quads lie apart on a normal of one of the edges of q after the first.
#[tactic(auto, unfolding(crate::specs::Steps::Touch::apart_by_others, crate::specs::Rules::Overlap::apart_along))]
fn apart_by_others(q: [[f64; 2]; 4], a: [[f64; 2]; 4], b: [[f64; 2]; 4]) -> bool
    ensures { result ≡ apart_by_others q a b }
{
    apart_on(normal(q[1], q[2]), a, b)
        || apart_on(normal(q[2], q[3]), a, b)
        || apart_on(normal(q[3], q[0]), a, b)
}

// The quads lie apart on a normal of one of the four edges of q.
#[tactic(auto, unfolding(crate::specs::Steps::Touch::apart_by_others, crate::specs::Rules::Overlap::apart_by_edges, crate::specs::Rules::Overlap::apart_along,))]
fn apart_by_edges(q: [[f64; 2]; 4], a: [[f64; 2]; 4], b: [[f64; 2]; 4]) -> bool
    ensures { result ≡ apart_by_edges q a b }
{
    apart_on(normal(q[0], q[1]), a, b) || apart_by_others(q, a, b)
}

// Neither the other edges of `a` nor those of `b` part the quads. Apart from the test of the first side, which is compiled into its caller:
// most pairs need no more.
fn overlap_past_first(a: [[f64; 2]; 4], b: [[f64; 2]; 4]) -> bool
    ensures { result ≡ not (apart_by_others a a b || apart_by_edges b a b) }
{
    !(apart_by_others(a, a, b) || apart_by_edges(b, a, b))
}

// The normal of a quad's first edge, and the quad's own span on it.
#[derive(Clone, Copy)]
pub(crate) struct Side {
    pub normal: [f64; 2],
    pub span: Span,
}

// A quad with its first side. Made once for a wheel: most tiles of a cell lie apart from the wheel on it.
#[derive(Clone, Copy)]
pub(crate) struct Sided {
    pub quad: [[f64; 2]; 4],
    side: Side,
    ghost own_side: { side ≡ first_side quad },
}

impl Sided {
    // The quad with its side.
    #[tactic(auto, unfolding(crate::specs::Steps::Touch::first_side))]
    pub(crate) fn new(quad: [[f64; 2]; 4]) -> Sided
        ensures { result.quad ≡ quad }
    {
        let normal = normal(quad[0], quad[1]);
        let span = Span::on(normal, quad);
        let side = Side { normal, span };
        Sided { quad, side }
    }

    // The other quad lies apart on the normal of the first edge.
    #[tactic(auto, unfolding(crate::specs::Steps::Touch::beyond))]
    fn is_beyond(&self, other: [[f64; 2]; 4]) -> bool
        ensures { result ≡ beyond self.now.side other }
    {
        let side = self.side;
        side.span.is_apart(Span::on(side.normal, other))
    }

    // Whether two quads overlap, by the eight normals of their edges.
    #[inline(always)]
    pub(crate) fn overlaps(&self, other: [[f64; 2]; 4]) -> bool
        ensures { result ≡ overlap_of self.now.quad other }
    {
        !self.is_beyond(other) && overlap_past_first(self.quad, other)
    }
}

// Whether two quads overlap. No contact calls it: it is for a caller who has two quads alone.
pub fn quad_overlap(a: [[f64; 2]; 4], b: [[f64; 2]; 4]) -> bool
    ensures { result ≡ overlap_of a b }
{
    Sided::new(a).overlaps(b)
}

// The place (u, v) of a wheel's own frame under its pose.
#[tactic(auto, unfolding(crate::specs::Rules::Wheel::placed))]
fn place(p: Pose, u: f64, v: f64) -> [f64; 2]
    ensures { result ≡ placed p u v }
{
    [p.x + p.cos * u - p.sin * v, p.y + p.sin * u + p.cos * v]
}

// The quad of a wheel.
pub fn wheel_quad(p: Pose) -> [[f64; 2]; 4]
    ensures { result ≡ wheel_quad p }
{
    let a = place(p, -WHEEL_W * SIZE, WHEEL_R * SIZE);
    let b = place(p, WHEEL_W * SIZE, WHEEL_R * SIZE);
    let c = place(p, WHEEL_W * SIZE, -WHEEL_R * SIZE);
    let d = place(p, -WHEEL_W * SIZE, -WHEEL_R * SIZE);
    [a, b, c, d]
}

// The cells of the four corners of a quad's box.
pub fn box_cells(q: [[f64; 2]; 4]) -> [usize; 4]
    ensures { result ≡ box_cells q }
{
    let r = Rect::of_quad(&q);
    let low = r.y0 * GRID_DIM;
    let high = r.y1 * GRID_DIM;
    [low + r.x0, low + r.x1, high + r.x0, high + r.x1]
}

// The cells of a wheel's box.
fn wheel_cells(p: Pose) -> [usize; 4]
    ensures { result ≡ box_cells (wheel_quad p) }
{
    box_cells(wheel_quad(p))
}

// The poses of four wheels, and the cells of each wheel's box. These are made before any of them is looked up: the wheels do not wait for
// each other.
#[derive(Clone, Copy)]
pub(crate) struct Stance {
    pub poses: [Pose; 4],
    pub cells: [[usize; 4]; 4],
    ghost own_cells: { cells ≡ sixteen_cells poses },
}

impl Stance {
    // The wheels stand at these poses.
    pub(crate) fn at(poses: [Pose; 4]) -> Stance
        ensures { result.poses ≡ poses }
    {
        let cells = poses.map(wheel_cells);
        Stance { poses, cells }
    }
}
