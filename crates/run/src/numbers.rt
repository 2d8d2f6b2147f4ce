// Controls, poses, motions and forces as numbers, by one trait, and those of four wheels, one wheel after the other: as a host lends them, and
// as a run keeps its last poses.
ghost use Rattle.std.specs.Prelude.{◌≡◌, List, ℕ, ◌+◌, ◌*◌, ◌≤◌, Float, length};
ghost use Rattle.std.specs.List.{flat_map};
ghost use Rattle.run.specs.Grader.Numbers.{wheel_from, wheel_list, car_from, car_numbers, pose_from, pose_list, poses_at, pose_numbers, motion_from, motion_list, force_from, force_list, force_numbers, four_from, motions_from, poses_from};

use crate::dynamics::{Force, Motion};
use crate::state::{Car, Pose, WheelCtl};

// The controls' numbers, five to a wheel.
pub(crate) const CONTROL_NUMBERS: usize = 20;

// The controls, then the fuel spent.
pub const CAR_NUMBERS: usize = CONTROL_NUMBERS + 1;

// Four to a wheel: x, y, cos, sin.
pub const POSE_NUMBERS: usize = 16;

// Five to a wheel: joint angle, sin, cos, vx, vy.
pub const MOTION_NUMBERS: usize = 20;

// A settle's in a list of calls, which has as many for it as for a drive: the hull's x and y, the four poses, and two that are not read.
pub const SETTLE_NUMBERS: usize = MOTION_NUMBERS;

// Three to a wheel: motor, fx, fy.
pub const FORCE_NUMBERS: usize = 12;

// A record of so many numbers.
// Kept as one trait for both ways, though a motion is only read here and a force only written: two would tell count and numbers of a record twice.
pub(crate) trait Numbers: Copy {
    const COUNT: usize;

    ghost COUNT: { ℕ };

    // The record that a column holds from a number on.
    ghost held: { List Float → ℕ → Self };

    // Its numbers.
    ghost list: { Self → List Float };

    // The record from number i on.
    // Kept with a place, since a `read` of exactly its numbers is no plainer: each caller would cut the part out first, and the record of a part
    // is that of the whole list by a law more for each of the four.
    fn read(numbers: &[f64], i: usize) -> Self
        requires { i + COUNT ≤ length numbers.now }
        ensures { result ≡ held numbers.now i };

    // Its numbers are written.
    fn write(self, numbers: &mut [f64])
        requires { length numbers.old ≡ COUNT }
        ensures { numbers.new ≡ list self };
}

impl Numbers for WheelCtl {
    const COUNT: usize = 5;

    ghost COUNT = { 5 };

    ghost held = { wheel_from };

    ghost list = { wheel_list };

    #[tactic(auto, unfolding(crate::specs::Grader::Numbers::wheel_from))]
    fn read(numbers: &[f64], i: usize) -> WheelCtl {
        WheelCtl {
            gas: numbers[i],
            brake: numbers[i + 1],
            steer: numbers[i + 2],
            omega: numbers[i + 3],
            phase: numbers[i + 4],
        }
    }

    fn write(self, numbers: &mut [f64]) {
        numbers.copy_from_slice(&[self.gas, self.brake, self.steer, self.omega, self.phase]);
    }
}

impl Numbers for Pose {
    const COUNT: usize = 4;

    ghost COUNT = { 4 };

    ghost held = { pose_from };

    ghost list = { pose_list };

    #[tactic(auto, unfolding(crate::specs::Grader::Numbers::pose_from))]
    fn read(numbers: &[f64], i: usize) -> Pose {
        Pose {
            x: numbers[i],
            y: numbers[i + 1],
            cos: numbers[i + 2],
            sin: numbers[i + 3],
        }
    }

    fn write(self, numbers: &mut [f64]) {
        numbers.copy_from_slice(&[self.x, self.y, self.cos, self.sin]);
    }
}

impl Numbers for Motion {
    const COUNT: usize = 5;

    ghost COUNT = { 5 };

    ghost held = { motion_from };

    ghost list = { motion_list };

    #[tactic(auto, unfolding(crate::specs::Grader::Numbers::motion_from))]
    fn read(numbers: &[f64], i: usize) -> Motion {
        Motion {
            joint_angle: numbers[i],
            sin: numbers[i + 1],
            cos: numbers[i + 2],
            vx: numbers[i + 3],
            vy: numbers[i + 4],
        }
    }

    fn write(self, numbers: &mut [f64]) {
        numbers.copy_from_slice(&[self.joint_angle, self.sin, self.cos, self.vx, self.vy]);
    }
}

impl Numbers for Force {
    const COUNT: usize = 3;

    ghost COUNT = { 3 };

    ghost held = { force_from };

    ghost list = { force_list };

    #[tactic(auto, unfolding(crate::specs::Grader::Numbers::force_from))]
    fn read(numbers: &[f64], i: usize) -> Force {
        Force {
            motor: numbers[i],
            fx: numbers[i + 1],
            fy: numbers[i + 2],
        }
    }

    fn write(self, numbers: &mut [f64]) {
        numbers.copy_from_slice(&[self.motor, self.fx, self.fy]);
    }
}

// The records of four wheels, one after the other from number i on.
// Kept as four reads: the closure of `array::from_fn(|w| T::read(numbers, i + w * T::COUNT))` asks for clauses of its own, w < 4 and the length
// again (tried), which are more lines than these.
pub(crate) fn read_four<T: Numbers>(numbers: &[f64], i: usize) -> [T; 4]
    requires { i + 4 * T.COUNT ≤ length numbers.now }
    ensures { result ≡ four_from T.held T.COUNT numbers.now i }
{
    let a = T::read(numbers, i);
    let b = T::read(numbers, i + T::COUNT);
    let c = T::read(numbers, i + 2 * T::COUNT);
    let d = T::read(numbers, i + 3 * T::COUNT);
    [a, b, c, d]
}

// The numbers of four wheels' records are written, one wheel after the other.
// Kept with the place of a wheel's numbers: tried with `chunks_exact_mut` beside the records, of whose parts no proof knows what they hold
// after the loop.
pub(crate) fn write_four<T: Numbers>(records: [T; 4], numbers: &mut [f64])
    requires { length numbers.old ≡ 4 * T.COUNT }
    ensures { numbers.new ≡ flat_map T.list records }
{
    for (w, record) in records.iter().enumerate() {
        let from = w * T::COUNT;
        record.write(&mut numbers[from..from + T::COUNT]);
    }
}

// The car that its numbers hold.
#[tactic(auto, unfolding(crate::specs::Grader::Numbers::car_from), using(crate::proofs::NumberLaws::car_read))]
pub fn car_from(numbers: &[f64; CAR_NUMBERS]) -> Car
    ensures value { result ≡ car_from numbers.now }
    ensures result_value { car_numbers result ≡ numbers.now }
{
    Car {
        ctl: read_four(numbers, 0),
        fuel_spent: numbers[CONTROL_NUMBERS],
    }
}

// The car's numbers are written.
#[tactic(auto, using(crate::proofs::NumberLaws::car_written))]
pub fn put_car(car: Car, numbers: &mut [f64; CAR_NUMBERS])
    ensures { numbers.new ≡ car_numbers car }
{
    write_four(car.ctl, &mut numbers[..CONTROL_NUMBERS]);
    numbers[CONTROL_NUMBERS] = car.fuel_spent;
}

// The four poses that their numbers hold.
#[tactic(auto, unfolding(crate::specs::Grader::Numbers::poses_at))]
pub fn poses_from(numbers: &[f64; POSE_NUMBERS]) -> [Pose; 4]
    ensures { result ≡ poses_at numbers.now 0 }
{
    read_four(numbers, 0)
}

// The poses' numbers are written.
#[tactic(auto, using(crate::proofs::NumberLaws::poses_written))]
pub fn put_poses(poses: [Pose; 4], numbers: &mut [f64; POSE_NUMBERS])
    ensures { numbers.new ≡ pose_numbers poses }
{
    write_four(poses, numbers);
}

// The four wheels' motions that their numbers hold.
#[tactic(auto, unfolding(crate::specs::Grader::Numbers::motions_from))]
pub fn motions_from(numbers: &[f64; MOTION_NUMBERS]) -> [Motion; 4]
    ensures { result ≡ motions_from numbers.now }
{
    read_four(numbers, 0)
}

// The four wheels' poses of a settle's numbers, behind the hull's place.
#[tactic(auto, unfolding(crate::specs::Grader::Numbers::poses_at))]
pub fn settle_poses(numbers: &[f64; SETTLE_NUMBERS]) -> [Pose; 4]
    ensures { result ≡ poses_from numbers.now }
{
    read_four(numbers, 2)
}

// The forces' numbers are written.
#[tactic(auto, using(crate::proofs::NumberLaws::forces_written))]
pub fn put_forces(forces: [Force; 4], numbers: &mut [f64; FORCE_NUMBERS])
    ensures { numbers.new ≡ force_numbers forces }
{
    write_four(forces, numbers);
}
