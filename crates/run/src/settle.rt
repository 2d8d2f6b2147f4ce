// The call `settle`: contact after physics (document 01, "Settle").
ghost use Rattle.std.specs.Prelude.{◌≡◌, ◌+◌, ◌<◌};
ghost use Rattle.run.specs.Grader.Widths.{full_words, most_tiles};
ghost use Rattle.run.specs.Grader.State.{view, lent_columns};
ghost use Rattle.run.specs.Grader.Settle.{settled_progress, settled_parts, settled_poses, settle_poses_of, after_settle, settle_of, settle_check};
ghost use Rattle.run.specs.Steps.Stand.{StanceOr};

use crate::numbers::POSE_NUMBERS;
use crate::quad::Stance;
use crate::state::{Pose, Progress, Run, Setup};
use crate::touch::{Columns, Course};
use crate::widths::{FULL_WORDS, MOST_TILES, WHEEL_WORDS};
use crate::{contact, lap, numbers, state};
use course::cause::Cause;

// Where the car stands after physics: the hull's place, and the wheels' poses.
#[derive(Clone, Copy)]
pub struct Places {
    pub x: f64,
    pub y: f64,
    pub poses: [Pose; 4],
}

// New tiles, the course's tile count, whether the hull is off the playfield, a lap is complete, and the run has ended.
#[derive(Clone, Copy, Default)]
pub struct SettleValues {
    pub new_tiles: u32,
    pub n: u32,
    pub off: bool,
    pub lap: bool,
    pub ended: bool,
}

// Where the wheels stand, or the first of the causes 4, 5, 6, 2, 8 and 10 that holds.
#[tactic(auto, unfolding(crate::specs::Grader::Settle::settle_check, crate::specs::Rules::Arguments::places_ok))]
fn settle_check(
    setup: Setup,
    progress: Progress,
    columns: Columns<'_>,
    places: Places,
) -> Result<Stance, Cause>
    ensures { StanceOr
        (settle_check most_tiles setup progress (lent_columns columns.entry)
        places.x places.y places.poses)
        places.poses result }
{
    if state::is_unfit(MOST_TILES, setup, progress) | progress.ended {
        return Err(Cause::State);
    }
    if !progress.driven {
        return Err(Cause::Turn);
    }
    if setup.tick_limit <= progress.tick {
        return Err(Cause::Limit);
    }
    if columns.is_short(setup.n) {
        return Err(Cause::Length);
    }
    if !((state::in_range(places.x) & state::in_range(places.y)) & state::poses_ok(places.poses)) {
        return Err(Cause::Range);
    }
    columns.stand(setup.n as usize, places.poses)
}

// The progress after a contact with `fresh` new tiles.
#[tactic(auto, unfolding(crate::specs::Grader::Settle::settled_progress))]
fn settled_progress(setup: Setup, progress: Progress, fresh: u32, zero: bool, off: bool) -> Progress
    requires { (progress.visited_count + fresh < 4294967296) × (progress.tick < setup.tick_limit) }
    ensures { result ≡ settled_progress setup progress fresh zero off }
{
    let count = progress.visited_count + fresh;
    let lap = lap::update_lap(progress.lap, zero, count, setup.n, setup.lap_share);
    Progress {
        visited_count: count,
        tick: progress.tick + 1,
        lap,
        ended: lap::is_end(count, setup.n, lap, off),
        driven: false,
    }
}

// The call on the parts that it reads and changes, each changed in place: a caller who keeps the state moves none of them. A refusal leaves them.
pub fn settle_parts(
    setup: Setup,
    progress: &mut Progress,
    credited: &mut [u64; FULL_WORDS],
    wheels: &mut [u64; WHEEL_WORDS],
    last: &mut [f64; POSE_NUMBERS],
    columns: Columns<'_>,
    places: Places,
) -> Result<SettleValues, Cause>
    ensures { settled_poses (settled_parts result progress.new credited.new wheels.new) last.new
        ≡ settle_poses_of full_words most_tiles setup progress.old credited.old wheels.old
        last.old (lent_columns columns.entry) places.x places.y places.poses }
{
    let stance = settle_check(setup, *progress, columns, places)?;
    let course = Course {
        columns,
        n: setup.n as usize,
    };
    let c = contact::full_contact(&stance, course, credited, wheels);
    let off = lap::is_off(places.x, places.y);
    let next = settled_progress(setup, *progress, c.fresh, c.zero, off);
    *progress = next;
    numbers::put_poses(places.poses, last);
    Ok(SettleValues {
        new_tiles: c.fresh,
        n: setup.n,
        off,
        lap: next.lap,
        ended: next.ended,
    })
}

// The contact after physics; a refusal leaves the state.
#[tactic(auto, unfolding(crate::specs::Grader::State::view, crate::specs::Grader::Settle::settle_of))]
pub fn settle(run: &mut Run, columns: Columns<'_>, places: Places) -> Result<SettleValues, Cause>
    ensures { after_settle result (view run.new)
        ≡ settle_of full_words most_tiles (view run.old)
        (lent_columns columns.entry) places.x places.y places.poses }
{
    settle_parts(
        run.setup,
        &mut run.progress,
        &mut run.credited,
        &mut run.wheels,
        &mut run.poses,
        columns,
        places,
    )
}
