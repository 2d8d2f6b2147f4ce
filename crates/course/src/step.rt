// One step of the walk round the checkpoints (document 01, "Lay": `try_generate`).
ghost use Rattle.std.specs.Prelude.{◌≡◌, ◌≤◌};
ghost use Rattle.course.specs.Rules.Trig.{turns_of};
ghost use Rattle.course.specs.Steps.Numbers.{turns_at, sin_cos_as};
ghost use Rattle.course.specs.Rules.Step.{sight_of, turn_down, turn_up, turn_of, steered, proj_of, landed_of, step_of};
ghost use Rattle.course.specs.Steps.Lay.{dest_as, walk_as, stepped_as, sight_as, turned_beta};

use crate::checkpoints::Checkpoint;
use crate::constants::{PI, SCALE, TAU, TRACK_DETAIL_STEP, TRACK_TURN_RATE};
use crate::finder::Dest;
use crate::tiles::TrackPoint;
use crate::trig::{SinCos, Turns};
use crate::{finder, numeric, trig};

const DOWN: f64 = 1.5 * PI;

const UP: f64 = -1.5 * PI;

// Where the walk stands: its place, its heading, the checkpoint it makes for, the laps done, and whether it has been on the
// side of negative angles since the last of them (the Rust's `visited_other_side`).
#[derive(Clone, Copy)]
pub(crate) struct Walk {
    pub x: f64,
    pub y: f64,
    pub beta: f64,
    pub dest: usize,
    pub laps: u32,
    pub visited: bool,
}

// What a step stores: its angle, and its point.
#[derive(Clone, Copy)]
pub(crate) struct TrackStep {
    pub alpha: f64,
    pub point: TrackPoint,
}

// The walk's angle, from 0 to tau, with laps and side brought up to date.
#[derive(Clone, Copy)]
pub(crate) struct Sight {
    pub alpha: f64,
    pub laps: u32,
    pub visited: bool,
}

// What the walk sees of itself before it looks for a checkpoint: whether its angle completes a lap, and on which side it is.
fn look(w: Walk) -> Sight
    requires { w.laps ≤ 4 }
    ensures { sight_as result ≡ sight_of (walk_as w) }
{
    let a = trig::angle_of(w.y, w.x);
    let lap = w.visited && a > 0.0;
    let laps = w.laps + u32::from(lap);
    if a < 0.0 {
        return Sight {
            alpha: a + TAU,
            laps,
            visited: true,
        };
    }
    Sight {
        alpha: a,
        laps,
        visited: w.visited && !lap,
    }
}

// Beta less tau while it is above alpha by more than 1.5 pi, and how many of the `left` turns are still allowed; none where
// one more is wanted.
fn turn_down(beta: f64, alpha: f64, left: u32) -> Option<(f64, u32)>
    ensures { result ≡ turn_down left beta alpha }
{
    let mut b = beta;
    for n in (0..=left).rev() {
        if !(b - alpha > DOWN) {
            return Some((b, n));
        }
        b -= TAU;
    }
    None
}

// Beta more tau while it is below alpha by more than 1.5 pi, none where more than the `left` turns are wanted.
// Kept beside `turn_down`, since one loop for both is no plainer: it would be passed the test and the turn, and its contract would have
// to tell both as functions of beta. With the signs turned over instead, a beta of -tau would give -0 in place of 0.
fn turn_up(beta: f64, alpha: f64, left: u32) -> Option<f64>
    ensures { result ≡ turned_beta (turn_up left beta alpha) }
{
    let mut b = beta;
    // Counted down, as `turn_up` of the definitions is.
    for _n in (0..=left).rev() {
        if !(b - alpha < UP) {
            return Some(b);
        }
        b += TAU;
    }
    None
}

// Both, with four turns in all: the fifth refuses.
#[tactic(auto, unfolding(crate::specs::Rules::Step::then_up, crate::specs::Rules::Step::turn_of))]
fn turn(beta: f64, alpha: f64) -> Option<f64>
    ensures { result ≡ turned_beta (turn_of beta alpha) }
{
    let (b, left) = turn_down(beta, alpha, 4)?;
    turn_up(b, alpha, left)
}

// The way to the checkpoint along the side of the heading h, times SCALE.
fn proj(w: Walk, h: SinCos, c: Checkpoint) -> f64
    ensures { result ≡ proj_of (walk_as w) (sin_cos_as h) c }
{
    (h.cos * (c.x - w.x) + h.sin * (c.y - w.y)) * SCALE
}

// Beta turned towards the checkpoint, at most by the turn rate. The side is asked first: it tells the sign of v, so that
// |v| is v or -v.
fn steer(beta: f64, proj: f64) -> f64
    ensures { result ≡ steered beta proj }
{
    let v = 0.001 * proj;
    if proj > 0.3 {
        return beta - numeric::min(TRACK_TURN_RATE, v);
    }
    if proj < -0.3 {
        return beta + numeric::min(TRACK_TURN_RATE, -v);
    }
    beta
}

// The record to store and the walk after the step, none where beta has left its bounds; `prev` is beta before it was steered.
fn landed(w: Walk, s: Sight, h: SinCos, d: Dest, prev: f64, beta: f64) -> Option<(TrackStep, Walk)>
    ensures { stepped_as result ≡ landed_of (walk_as w) (sight_as s) (sin_cos_as h) (dest_as d) prev beta }
{
    if !numeric::inside(beta, 16.0) {
        return None;
    }
    let x = w.x + -h.sin * TRACK_DETAIL_STEP;
    let y = w.y + h.cos * TRACK_DETAIL_STEP;
    let point = TrackPoint {
        beta: prev * 0.5 + beta * 0.5,
        x,
        y,
    };
    let p = TrackStep {
        alpha: d.alpha,
        point,
    };
    let next = Walk {
        x,
        y,
        beta,
        dest: d.index,
        laps: s.laps,
        visited: s.visited,
    };
    Some((p, next))
}

// A step of the walk; t holds the quarter turns in its heading. It refuses at a third pass over the checkpoints, a fifth turn
// of beta, and beta beyond ±16 at its end. The heading comes first: the next step waits for it, and not for the angle.
pub(crate) fn step(cs: &[Checkpoint; 12], w: Walk, t: Turns) -> Option<(TrackStep, Walk)>
    requires laps_bound { w.laps ≤ 4 }
    requires t_value { t ≡ turns_at (turns_of w.beta) }
    ensures { stepped_as result ≡ step_of cs.now (walk_as w) }
{
    let h = trig::turned(w.beta, t);
    let s = look(w);
    let d = finder::find(cs, w.dest, s.alpha)?;
    let b = turn(w.beta, d.alpha)?;
    landed(w, s, h, d, b, steer(b, proj(w, h, d.checkpoint)))
}
