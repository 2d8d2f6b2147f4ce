// The twelve checkpoints of an attempt (document 01, "Lay": `try_generate`), from 24 draws.
ghost use Rattle.std.specs.Prelude.{◌≡◌};
ghost use Rattle.rng.specs.Rules.SplitMix.{after};
ghost use Rattle.course.specs.Rules.Checkpoints.{spot_of, checkpoint_of, checkpoints_of};

use crate::constants::{FAR_RAD, TAU, TRACK_RAD};
use crate::trig;
use rng::SplitMix64;

const LEAST_RAD: f64 = TRACK_RAD / 3.0;

const TWELFTH: f64 = TAU / 12.0;

// A place that the track makes for, and its angle as seen from the middle. A host lends checkpoints in this layout.
#[derive(Clone, Copy, Default)]
#[repr(C)]
pub struct Checkpoint {
    pub angle: f64,
    pub x: f64,
    pub y: f64,
}

// The checkpoint at an angle and a radius.
fn spot(angle: f64, rad: f64) -> Checkpoint
    ensures { result ≡ spot_of angle rad }
{
    let t = trig::sin_cos(angle);
    Checkpoint {
        angle,
        x: rad * t.cos,
        y: rad * t.sin,
    }
}

// Checkpoint c, from its two draws; the first and the last have theirs overridden.
fn one_checkpoint(c: u32, noise: f64, rad: f64) -> Checkpoint
    ensures { result ≡ checkpoint_of c noise rad }
{
    if c == 0 {
        return spot(0.0, FAR_RAD);
    }
    let base = TAU * f64::from(c) / 12.0;
    if c == 11 {
        return spot(base, FAR_RAD);
    }
    spot(base + noise, rad)
}

// The checkpoints of an attempt: two draws for each, the noise first.
// Kept as an array that is filled: `array::from_fn` would draw in a closure that captures the generator, and is no plainer, since its contract
// would tell of each call what the loop's invariant tells once.
pub(crate) fn checkpoints(g: &mut SplitMix64) -> [Checkpoint; 12]
    ensures value { result ≡ checkpoints_of 12 g.old }
    ensures state { g.new ≡ after 24 g.old }
{
    let mut cs = [Checkpoint::default(); 12];
    for (c, place) in cs.iter_mut().enumerate() {
        let noise = g.uniform(0.0, TWELFTH);
        let rad = g.uniform(LEAST_RAD, TRACK_RAD);
        *place = one_checkpoint(c as u32, noise, rad);
    }
    cs
}
