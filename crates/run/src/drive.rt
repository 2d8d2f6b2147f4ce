// The call `drive`: forces for the host (document 01, "Drive").
ghost use Rattle.std.specs.Prelude.{◌≡◌, ℕ, ◌+◌, ◌*◌, ◌^◌, ◌≤◌, ◌<◌, length, get_or, cond, ltb, Ok, Err};
ghost use Rattle.course.specs.declared.cause.Cause.{Cause};
ghost use Rattle.run.specs.Grader.Widths.{full_words, most_tiles};
ghost use Rattle.run.specs.Grader.State.{view};
ghost use Rattle.std.specs.List.{list_any};
ghost use Rattle.run.specs.Rules.Below.{any_below};
ghost use Rattle.run.specs.Grader.Words.{member};
ghost use Rattle.run.specs.Grader.Grip.{roads_of};
ghost use Rattle.run.specs.Rules.Arguments.{motion_ok, motions_ok};
ghost use Rattle.run.specs.Rules.Pass.{steer_of, gas_of, brake_of, front_of, rear_of, tyres_passed, pass_of};
ghost use Rattle.run.specs.Grader.Drive.{drive_check, drove_parts, drive_parts_of, driven, drive_of};
ghost use Rattle.run.specs.Steps.Drive.{wheel_as, stands, action_number, numbered, told};

use crate::dynamics::{Force, Motion, TyreForce};
use crate::state::{Car, Progress, Run, Setup, WheelCtl};
use crate::widths::{FULL_WORDS, MOST_TILES, WHEEL_WORDS};
use crate::{dynamics, state};
use course::cause::Cause;
use course::numeric;
use std::array;

// What the tyre pass leaves.
#[derive(Clone, Copy)]
pub(crate) struct Passed {
    pub car: Car,
    pub forces: [Force; 4],
}

// What a driver does in a tick, in the order of the numbers from 0.
#[derive(Clone, Copy, Debug, PartialEq, Eq)]
pub(crate) enum Action {
    Nothing,
    Right,
    Left,
    Gas,
    Brake,
}

// The action of a number; above 4 stands none (cause 7).
impl TryFrom<u32> for Action {
    type Error = Cause;

    ghost try_from_gives = { λ n r. numbered r ≡ cond (ltb 4 n) (Err Cause.Action) (Ok n) };

    fn try_from(number: u32) -> Result<Action, Cause> {
        match number {
            0 => Ok(Action::Nothing),
            1 => Ok(Action::Right),
            2 => Ok(Action::Left),
            3 => Ok(Action::Gas),
            4 => Ok(Action::Brake),
            _ => Err(Cause::Action),
        }
    }
}

impl Action {
    // Where the front wheels are steered; clockwise is below 0.
    #[tactic(auto, using(crate::proofs::ActionLaws::steer_right, crate::proofs::ActionLaws::steer_left, crate::proofs::ActionLaws::steer_none))]
    fn steer(self) -> f64
        ensures { result ≡ steer_of (action_number self) }
    {
        match self {
            Action::Right => -0.6,
            Action::Left => 0.6,
            _ => 0.0,
        }
    }

    // The gas that is wished for.
    #[tactic(auto, using(crate::proofs::ActionLaws::gas_wished, crate::proofs::ActionLaws::gas_none))]
    fn gas(self) -> f64
        ensures { result ≡ gas_of (action_number self) }
    {
        match self {
            Action::Gas => 0.2,
            _ => 0.0,
        }
    }

    #[tactic(auto, using(crate::proofs::ActionLaws::brake_on, crate::proofs::ActionLaws::brake_none))]
    fn brake(self) -> f64
        ensures { result ≡ brake_of (action_number self) }
    {
        match self {
            Action::Brake => 0.8,
            _ => 0.0,
        }
    }
}

// The controls of a front wheel: steering and brake are set, gas stays.
#[tactic(auto, unfolding(crate::specs::Rules::Pass::front_of))]
fn front(w: WheelCtl, action: Action) -> WheelCtl
    ensures { result ≡ front_of (action_number action) w }
{
    WheelCtl {
        steer: action.steer(),
        brake: action.brake(),
        ..w
    }
}

// The controls of a rear wheel: gas rises by at most 0.1 and falls at once, the brake is set, steering stays.
#[tactic(auto, unfolding(crate::specs::Rules::Pass::rear_of, crate::specs::Rules::Pass::raised_of), using(crate::proofs::Literals::tenth))]
fn rear(w: WheelCtl, action: Action) -> WheelCtl
    ensures { result ≡ rear_of (action_number action) w }
{
    WheelCtl {
        gas: w.gas + numeric::min(action.gas() - w.gas, 0.1),
        brake: action.brake(),
        ..w
    }
}

// The tyre pass over the four wheels, the fuel going from one to the next. What pushes at the tyres is worked out for all of them
// before any is cut: a root takes long, and so the wheels' roots do not wait for each other.
// Kept wheel by wheel where the fuel goes on, which is no plainer otherwise: each wheel starts from what the one before it spent, and a loop
// that carries it would write controls and forces by place.
#[tactic(auto, unfolding(crate::specs::Rules::Pass::gathered_of), using(crate::proofs::DriveLaws::wheel_passed, crate::proofs::DriveLaws::pass_from))]
fn pass(car: Car, action: Action, motion: [Motion; 4], roads: [bool; 4]) -> Passed
    ensures { tyres_passed result.car result.forces ≡ pass_of car (action_number action) motion roads }
{
    let [w0, w1, w2, w3]: [WheelCtl; 4] = car.ctl;
    let ctl = [
        front(w0, action),
        front(w1, action),
        rear(w2, action),
        rear(w3, action),
    ];
    let omega = ctl.map(dynamics::turning);
    let push: [TyreForce; 4] = array::from_fn(|w| dynamics::push(omega[w], motion[w]));
    let s: [TyreForce; 4] = array::from_fn(|w| dynamics::held(roads[w], push[w]));
    let a = dynamics::finish(ctl[0], motion[0], omega[0], s[0], car.fuel_spent);
    let b = dynamics::finish(ctl[1], motion[1], omega[1], s[1], a.fuel_spent);
    let c = dynamics::finish(ctl[2], motion[2], omega[2], s[2], b.fuel_spent);
    let d = dynamics::finish(ctl[3], motion[3], omega[3], s[3], c.fuel_spent);
    Passed {
        car: Car {
            ctl: [a.ctl, b.ctl, c.ctl, d.ctl],
            fuel_spent: d.fuel_spent,
        },
        forces: [a.force, b.force, c.force, d.force],
    }
}

// A wheel's five numbers are in range.
#[tactic(auto, unfolding(crate::specs::Rules::Arguments::motion_ok))]
fn motion_ok(m: Motion) -> bool
    ensures { result ≡ motion_ok m }
{
    state::in_range(m.joint_angle)
        & state::in_range(m.sin)
        & state::in_range(m.cos)
        & state::in_range(m.vx)
        & state::in_range(m.vy)
}

// Whether a word is not 0. Kept as a fold that reads them all, several at a time: `any`, which reads word by word and stops, was tried, and took
// 10 % more instructions in a drive with no wheel on the road, where 5 % are the bar.
fn any_stands(words: &[u64]) -> bool
    ensures { result ≡ list_any stands words.now }
{
    words.iter().fold(false, |any, word| any | (*word != 0))
}

// Whether a wheel touched a tile at the last contact, by its set. The first words are looked at alone: they hold the tiles of most courses,
// so that they answer for a wheel on the road. Compiled in place: four calls of it cost more than the words.
#[inline(always)]
fn on_road(set: &[u64]) -> bool
    ensures { result ≡ any_below (64 * length set.now) (member set.now) }
{
    let (first, others) = set.split_at(set.len().min(8));
    any_stands(first) || any_stands(others)
}

// Which wheels touched a tile at the last contact.
// Kept as four calls, since the proof did not close: with `array::from_fn` (tried) no law ties its closure's answers to the parts of the sets.
fn roads_of(wheels: &[u64; WHEEL_WORDS]) -> [bool; 4]
    ensures { result ≡ roads_of full_words wheels.now }
{
    let (sets, _) = wheels.as_chunks::<FULL_WORDS>();
    [
        on_road(&sets[0]),
        on_road(&sets[1]),
        on_road(&sets[2]),
        on_road(&sets[3]),
    ]
}

// The four wheels' numbers are in range.
#[tactic(auto, unfolding(crate::specs::Rules::Arguments::motions_ok), using(crate::proofs::FourItems::all_four))]
fn motions_ok(m: [Motion; 4]) -> bool
    ensures { result ≡ motions_ok m }
{
    m.iter().all(|motion| motion_ok(*motion))
}

// The action, or the first cause that holds.
// Kept with causes 4 to 6 tested as in `settle_check`, which waits for a drive where this waits for a settle: a test for both is no plainer, since it
// would be told which of the two calls it is.
#[tactic(auto, unfolding(crate::specs::Grader::Drive::drive_check))]
fn drive_check(
    setup: Setup,
    progress: Progress,
    action: u32,
    motion: [Motion; 4],
) -> Result<Action, Cause>
    ensures { numbered result
        ≡ told action (drive_check most_tiles setup progress action motion) }
{
    if state::is_unfit(MOST_TILES, setup, progress) | progress.ended {
        return Err(Cause::State);
    }
    if progress.driven {
        return Err(Cause::Turn);
    }
    if setup.tick_limit <= progress.tick {
        return Err(Cause::Limit);
    }
    let action = Action::try_from(action)?;
    if !motions_ok(motion) {
        return Err(Cause::Range);
    }
    Ok(action)
}

// The call on the parts that it reads and changes, the wheels' sets lent. A refusal leaves them. The action is the number that a host hands:
// that it is none is a cause of this call, 7, which stands behind causes 4 to 6 of the state.
pub fn drive_parts(
    setup: Setup,
    progress: &mut Progress,
    car: &mut Car,
    wheels: &[u64; WHEEL_WORDS],
    action: u32,
    motion: [Motion; 4],
) -> Result<[Force; 4], Cause>
    ensures { drove_parts result progress.new car.new
        ≡ drive_parts_of full_words most_tiles setup progress.old car.old wheels.now action motion }
{
    let action = drive_check(setup, *progress, action, motion)?;
    let roads = roads_of(wheels);
    let p = pass(*car, action, motion, roads);
    *car = p.car;
    // A settle is awaited.
    progress.driven = true;
    Ok(p.forces)
}

// Forces for the host; a refusal leaves the state.
#[tactic(auto, unfolding(crate::specs::Grader::State::view, crate::specs::Grader::Drive::drive_of))]
pub fn drive(run: &mut Run, action: u32, motion: [Motion; 4]) -> Result<[Force; 4], Cause>
    ensures { driven result (view run.new)
        ≡ drive_of full_words most_tiles (view run.old) action motion }
{
    drive_parts(
        run.setup,
        &mut run.progress,
        &mut run.car,
        &run.wheels,
        action,
        motion,
    )
}
