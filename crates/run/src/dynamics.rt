// The tyre pass of the reference's dynamics.rs for one wheel: `CarWorld::step` up to `add_force`, each
// operation in the Rust's order (document 01, "Drive").
ghost use Rattle.std.specs.Prelude.{◌≡◌, true, false};
ghost use Rattle.std.specs.Float.Ieee.{lt};
ghost use Rattle.course.specs.Rules.Root.{sqrt_of};
ghost use Rattle.run.specs.Rules.Dynamics.{motor_of, spun_of, braked_of, turning_of, limit_of, held_of, push_of, finish_of};
ghost use Rattle.run.specs.Steps.Drive.{tyre_force_as, wheel_as};

use crate::state::WheelCtl;
use course::constants::FPS;
use course::{numeric, root};

pub const SIZE: f64 = 0.02;

const ENGINE_POWER: f64 = 100_000_000.0 * SIZE * SIZE;

const WHEEL_MOMENT_OF_INERTIA: f64 = 4000.0 * SIZE * SIZE;

pub const FRICTION_LIMIT: f64 = 1_000_000.0 * SIZE * SIZE;

pub const WHEEL_R: f64 = 27.0;

// The Rust's `wheel_rad`, its factor of both forces, and the `dt` that `step` is called with.
const WHEEL_RAD: f64 = WHEEL_R * SIZE;

const STIFFNESS: f64 = 205_000.0 * SIZE * SIZE;

const DT: f64 = 1.0 / FPS;

// What the host says of a wheel: the joint's angle, sine and cosine of the wheel's direction, its speed.
#[repr(C)]
#[derive(Clone, Copy)]
pub struct Motion {
    pub joint_angle: f64,
    pub sin: f64,
    pub cos: f64,
    pub vx: f64,
    pub vy: f64,
}

// What the host is told for a wheel: the joint motor's speed, and the force.
#[repr(C)]
#[derive(Clone, Copy, Default)]
pub struct Force {
    pub motor: f64,
    pub fx: f64,
    pub fy: f64,
}

// The forces at a tyre, along its direction and across it.
#[derive(Clone, Copy)]
pub(crate) struct TyreForce {
    pub f_force: f64,
    pub p_force: f64,
}

// What one wheel's pass leaves.
#[derive(Clone, Copy)]
pub(crate) struct Turned {
    pub ctl: WheelCtl,
    pub force: Force,
    pub fuel_spent: f64,
}

// The joint motor's speed: 50 times the way to the steering angle, cut at 3 and at -3. A product has the sign of its factor, also
// at -0, so that this is the Rust's sign times the lesser size.
#[tactic(auto, using(crate::proofs::MotorLaw::motor_clamped))]
pub(crate) fn motor(steer: f64, angle: f64) -> f64
    ensures { result ≡ motor_of steer angle }
{
    numeric::clamp(50.0 * (steer - angle), -3.0, 3.0)
}

// Omega after the engine.
#[tactic(auto, unfolding(crate::specs::Rules::Dynamics::spun_of), using(crate::proofs::Literals::dt_bits, crate::proofs::Literals::engine_power_bits, crate::proofs::Literals::inertia_bits, crate::proofs::Literals::five))]
pub(crate) fn spun(gas: f64, omega: f64) -> f64
    ensures { result ≡ spun_of gas omega }
{
    omega + DT * ENGINE_POWER * gas / WHEEL_MOMENT_OF_INERTIA / (numeric::abs(omega) + 5.0)
}

// The braking rule: omega after the brake.
#[tactic(auto, unfolding(crate::specs::Rules::Dynamics::braked_of), using(crate::proofs::Literals::nine_tenths, crate::proofs::Literals::zero_bits, crate::proofs::Literals::fifteen))]
pub fn braked(brake: f64, omega: f64) -> f64
    ensures { result ≡ braked_of brake omega }
{
    if brake >= 0.9 {
        return 0.0;
    }
    if brake > 0.0 {
        let dir = -numeric::signum(omega);
        let val = 15.0 * brake;
        let mag = numeric::abs(omega);
        if val > mag {
            return omega + dir * mag;
        }
        return omega + dir * val;
    }
    omega
}

// Omega after the engine, then the brake.
#[tactic(auto, unfolding(crate::specs::Rules::Dynamics::turning_of))]
pub(crate) fn turning(w: WheelCtl) -> f64
    ensures { result ≡ turning_of w }
{
    braked(w.brake, spun(w.gas, w.omega))
}

// The Rust's `friction_limit`: what the ground under the wheel bears.
#[tactic(auto, unfolding(crate::specs::Rules::Dynamics::limit_of), using(crate::proofs::Literals::friction_limit_bits, crate::proofs::Literals::one, crate::proofs::Literals::six_tenths))]
pub(crate) fn limit(road: bool) -> f64
    ensures { result ≡ limit_of road }
{
    if road {
        return FRICTION_LIMIT * 1.0;
    }
    FRICTION_LIMIT * 0.6
}

// Whether s is so small that its root is certainly not above the limit: by the limit's square.
#[tactic(auto, using(crate::proofs::SmallForces::small_road, crate::proofs::SmallForces::small_grass))]
fn is_small(road: bool, s: f64) -> bool
    ensures { result ≡ true → lt (limit_of road) (sqrt_of s) ≡ false }
{
    if road {
        return s <= 160_000.0;
    }
    s <= 57_600.0
}

// The two forces, cut down together to the limit. A root is taken only where it decides.
#[tactic(auto, unfolding(crate::specs::Rules::Dynamics::held_of))]
pub(crate) fn held(road: bool, push: TyreForce) -> TyreForce
    ensures { tyre_force_as result ≡ held_of (limit_of road) push.f_force push.p_force }
{
    let s = push.f_force * push.f_force + push.p_force * push.p_force;
    if is_small(road, s) {
        return push;
    }
    let force = root::sqrt(s);
    let most = limit(road);
    if force > most {
        return TyreForce {
            f_force: push.f_force / force * most,
            p_force: push.p_force / force * most,
        };
    }
    push
}

// What pushes at a tyre that turns at omega, before it is cut: by how its surface slips over the ground.
#[tactic(auto, unfolding(crate::specs::Rules::Dynamics::push_of), using(crate::proofs::Literals::wheel_rad_bits, crate::proofs::Literals::stiffness_bits))]
pub(crate) fn push(omega: f64, m: Motion) -> TyreForce
    ensures { tyre_force_as result ≡ push_of omega m }
{
    let vf = -m.sin * m.vx + m.cos * m.vy;
    let vs = m.cos * m.vx + m.sin * m.vy;
    TyreForce {
        f_force: (-vf + omega * WHEEL_RAD) * STIFFNESS,
        p_force: -vs * STIFFNESS,
    }
}

// What one wheel's pass leaves, given how fast the wheel turns after the brake and the forces as they are cut. Phase is turned by
// omega as the brake leaves it, before the ground acts on the wheel.
#[tactic(auto, unfolding(crate::specs::Rules::Dynamics::finish_of), using(crate::proofs::Literals::wheel_rad_bits, crate::proofs::Literals::inertia_bits, crate::proofs::Literals::dt_bits, crate::proofs::Literals::engine_power_bits))]
pub(crate) fn finish(w: WheelCtl, m: Motion, omega: f64, s: TyreForce, fuel: f64) -> Turned
    ensures { wheel_as result ≡ finish_of w m omega (tyre_force_as s) fuel }
{
    let ctl = WheelCtl {
        omega: omega - DT * s.f_force * WHEEL_RAD / WHEEL_MOMENT_OF_INERTIA,
        phase: w.phase + omega * DT,
        ..w
    };
    let force = Force {
        motor: motor(w.steer, m.joint_angle),
        fx: s.p_force * m.cos + s.f_force * -m.sin,
        fy: s.p_force * m.sin + s.f_force * m.cos,
    };
    Turned {
        ctl,
        force,
        fuel_spent: fuel + DT * ENGINE_POWER * w.gas,
    }
}
