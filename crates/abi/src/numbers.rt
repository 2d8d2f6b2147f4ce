// The stand-ins for sine, cosine, atan2 and the square root, the cells, and the draws.
ghost use Rattle.std.specs.Prelude.{◌≡◌};
ghost use Rattle.rng.specs.Rules.SplitMix.{at_state, draw_of};
ghost use Rattle.course.specs.Grader.Angle.{sine_call, cosine_call, atan2_call};
ghost use Rattle.course.specs.Rules.Root.{sqrt_of};
ghost use Rattle.course.specs.Rules.Cell.{cell_of};
ghost use Rattle.abi.specs.Grader.Flat.{flat_angle, flat_draw};

use crate::flat::{Draw, FlatAngle};
use course::{cell, root, trig};
use rng::SplitMix64;

// The sine of a, |a| at most 16.
#[unsafe(no_mangle)]
pub extern "C" fn grader_sine(a: f64) -> FlatAngle
    ensures { result ≡ flat_angle (sine_call a) }
{
    FlatAngle::from(trig::sine(a))
}

// The cosine of a, |a| at most 16.
#[unsafe(no_mangle)]
pub extern "C" fn grader_cosine(a: f64) -> FlatAngle
    ensures { result ≡ flat_angle (cosine_call a) }
{
    FlatAngle::from(trig::cosine(a))
}

// The angle of (x, y), each at most 1,000,000 in size.
#[unsafe(no_mangle)]
pub extern "C" fn grader_atan2(y: f64, x: f64) -> FlatAngle
    ensures { result ≡ flat_angle (atan2_call y x) }
{
    FlatAngle::from(trig::atan2(y, x))
}

// The square root, as IEEE 754 has it.
#[unsafe(no_mangle)]
pub extern "C" fn grader_sqrt(x: f64) -> f64
    ensures { result ≡ sqrt_of x }
{
    root::sqrt(x)
}

// The grid cell of a coordinate: 0 to 66.
#[unsafe(no_mangle)]
pub extern "C" fn grader_cell(v: f64) -> u32
    ensures { result ≡ cell_of v }
{
    cell::cell_of(v) as u32
}

// The draw of the generator at a state, and the state to go on with.
#[unsafe(no_mangle)]
#[tactic(auto, unfolding(crate::specs::Grader::Flat::flat_draw))]
pub extern "C" fn grader_draw(state: u64) -> Draw
    ensures { result ≡ flat_draw (draw_of (at_state state)) }
{
    let mut g = SplitMix64::new(state);
    let value = g.next_u64();
    Draw {
        value,
        state: g.state(),
    }
}
