// The state of a run, and the tests of arguments and states that the calls share (document 01,
// "Refusals by cause").
ghost use Rattle.std.specs.Prelude.{◌≡◌, ◌&&◌, leb};
ghost use Rattle.run.specs.Grader.Widths.{full_words};
ghost use Rattle.run.specs.Grader.State.{unfit, view};
ghost use Rattle.run.specs.Grader.Start.{zero_state};
ghost use Rattle.run.specs.Rules.Arguments.{in_range, pose_ok, poses_ok, short_columns};

use crate::numbers::POSE_NUMBERS;
use crate::widths::{FULL_WORDS, WHEEL_WORDS};
use course::cause::Cause;
use course::constants::OFFSET_COUNT;
use course::{constants, numeric};

// A wheel's control record: what it keeps from drive to drive.
#[repr(C)]
#[derive(Clone, Copy, Default)]
pub struct WheelCtl {
    pub gas: f64,
    pub brake: f64,
    pub steer: f64,
    pub omega: f64,
    pub phase: f64,
}

// A wheel's pose: its place, and cosine and sine of its direction.
#[repr(C)]
#[derive(Clone, Copy)]
pub struct Pose {
    pub x: f64,
    pub y: f64,
    pub cos: f64,
    pub sin: f64,
}

// What start fixes: no later call changes it.
// Kept apart from `Progress`, though calls take both: the C interface hands each on by value, and a call answers the one that it changes.
#[repr(C)]
#[derive(Clone, Copy, Default)]
pub struct Setup {
    // The course's tile count.
    pub n: u32,
    pub tick_limit: u32,
    pub lap_share: f64,
    pub fallback: bool,
}

// What settle changes, and whether a drive awaits it.
#[repr(C)]
#[derive(Clone, Copy, Default)]
pub struct Progress {
    // How many tiles are credited.
    pub visited_count: u32,
    pub tick: u32,
    pub lap: bool,
    pub ended: bool,
    // A drive awaits its settle: an accepted drive says so, and its settle takes it back.
    pub driven: bool,
}

// What drive changes.
#[repr(C)]
#[derive(Clone, Copy, Default)]
pub struct Car {
    pub ctl: [WheelCtl; 4],
    pub fuel_spent: f64,
}

// The state of a run, by who writes it; then a set of the credited tiles, and for each wheel one of the tiles that it touched last; then what
// only a save reads.
#[repr(C)]
#[derive(Clone, Copy)]
pub struct Run {
    pub setup: Setup,
    pub progress: Progress,
    pub car: Car,
    pub credited: [u64; FULL_WORDS],
    // Kept flat, a set behind the other: document 01, "Which shape goes where", names one array of 160 words, 40 to a wheel.
    pub wheels: [u64; WHEEL_WORDS],
    // The wheels' poses at the last contact, each x, y, cos, sin.
    // Kept as numbers: `grader_run` of host/grader.h has `double poses[GRADER_POSES]`, sixteen, and a host lends as many to `grader_settle_parts`.
    pub poses: [f64; POSE_NUMBERS],
    // The course's seed, as start was told it.
    pub seed: u64,
}

// The state of zeros.
impl Default for Run {
    #[tactic(auto, unfolding(crate::specs::Grader::State::view, crate::specs::Grader::Start::zero_state, crate::specs::Grader::Start::first_progress), using(crate::proofs::Zeros::still_car_is))]
    fn default() -> Run
        ensures { view result ≡ zero_state full_words }
    {
        Run {
            setup: Setup::default(),
            progress: Progress::default(),
            car: Car::default(),
            credited: [0; FULL_WORDS],
            wheels: [0; WHEEL_WORDS],
            poses: [0.0; POSE_NUMBERS],
            seed: 0,
        }
    }
}

// A call's answer, and the state beside it: the state of zeros where the call is refused.
// Kept as a pair: document 01 gives a refused start the state of zeros, and document 02 a refused restore, which an `Err` would not hand on.
#[derive(Clone, Copy)]
pub struct Answered<T> {
    pub answer: Result<T, Cause>,
    pub run: Run,
}

// Finite and within a million of 0 (cause 8).
#[tactic(auto, unfolding(crate::specs::Rules::Arguments::in_range), using(crate::proofs::Literals::million))]
pub fn in_range(x: f64) -> bool
    ensures { result ≡ in_range x }
{
    numeric::inside(x, 1000000.0)
}

// A pose's four numbers are in range.
#[tactic(auto, unfolding(crate::specs::Rules::Arguments::pose_ok))]
pub fn pose_ok(p: Pose) -> bool
    ensures { result ≡ pose_ok p }
{
    in_range(p.x) & in_range(p.y) & in_range(p.cos) & in_range(p.sin)
}

// Four poses are in range.
#[tactic(auto, unfolding(crate::specs::Rules::Arguments::poses_ok), using(crate::proofs::FourItems::all_four))]
pub fn poses_ok(p: [Pose; 4]) -> bool
    ensures { result ≡ poses_ok p }
{
    p.iter().all(|pose| pose_ok(*pose))
}

// A column lent with a course of n points is short, by the lengths of tiles and offsets (cause 2).
#[tactic(auto, unfolding(crate::specs::Rules::Arguments::short_columns))]
pub fn is_short(n: u32, tiles: usize, offsets: usize) -> bool
    ensures { result ≡ short_columns n tiles offsets }
{
    let m = constants::column_length(n as usize);
    let short = tiles < 8 * m;
    short | (offsets < OFFSET_COUNT)
}

// A course of n tiles can have a run where sets hold `most` tiles: it has some, and a set has room for them (causes 2, 4 and 11).
pub(crate) fn count_ok(most: u32, n: u32) -> bool
    ensures { result ≡ (leb 1 n && leb n most) }
{
    (1 <= n) & (n <= most)
}

// Cause 4 but for its ended part, where sets hold `most` tiles: the sheet's whole cause.
#[tactic(auto, unfolding(crate::specs::Grader::State::unfit))]
pub fn is_unfit(most: u32, setup: Setup, progress: Progress) -> bool
    ensures { result ≡ unfit most setup progress }
{
    !count_ok(most, setup.n) | (setup.n < progress.visited_count)
}
