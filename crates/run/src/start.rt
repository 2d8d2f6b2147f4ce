// The call `start`: the first contact (document 01, "Start").
ghost use Rattle.std.specs.Prelude.{◌≡◌};
ghost use Rattle.run.specs.Grader.Widths.{full_words, most_tiles};
ghost use Rattle.run.specs.Grader.State.{view, lent_columns};
ghost use Rattle.run.specs.Grader.Start.{start_check, first_progress, zero_state, begun, start_of};
ghost use Rattle.run.specs.Rules.Arguments.{settings_ok};
ghost use Rattle.run.specs.Steps.Stand.{StanceOr};

use crate::quad::Stance;
use crate::state::{Answered, Pose, Progress, Run, Setup};
use crate::touch::{Columns, Course};
use crate::widths::MOST_TILES;
use crate::{contact, lap, numbers, state};
use course::cause::Cause;

// What start is told beside the lent columns.
#[derive(Clone, Copy)]
pub struct Settings {
    pub n: u32,
    pub fallback: bool,
    pub seed: u64,
    pub share: f64,
    pub limit: u32,
    pub poses: [Pose; 4],
}

// How many tiles are credited at the start, and the lap.
#[derive(Clone, Copy, Default)]
pub struct StartValues {
    pub count: u32,
    pub lap: bool,
}

// Lap share and tick limit are in range (cause 1).
#[tactic(auto, unfolding(crate::specs::Rules::Arguments::settings_ok), using(crate::proofs::Literals::zero_bits, crate::proofs::Literals::one))]
pub(crate) fn settings_ok(share: f64, limit: u32) -> bool
    ensures { result ≡ settings_ok share limit }
{
    ((0.0 <= share) & (share <= 1.0)) & ((1 <= limit) & (limit <= 1000000))
}

// Where the wheels stand, or the first of the causes 1, 2, 8 and 10 that holds.
#[tactic(auto, unfolding(crate::specs::Grader::Start::start_check, crate::specs::Grader::Start::start_short))]
fn start_check(columns: Columns<'_>, settings: Settings) -> Result<Stance, Cause>
    ensures { StanceOr (start_check most_tiles (lent_columns columns.entry) settings)
        settings.poses result }
{
    let n = settings.n;
    if !settings_ok(settings.share, settings.limit) {
        return Err(Cause::Settings);
    }
    if columns.is_short(n) | !state::count_ok(MOST_TILES, n) {
        return Err(Cause::Length);
    }
    if !state::poses_ok(settings.poses) {
        return Err(Cause::Range);
    }
    columns.stand(n as usize, settings.poses)
}

// Tick 0 and no drive made, with so many tiles credited.
#[tactic(auto, unfolding(crate::specs::Grader::Start::first_progress))]
fn first_progress(count: u32, lap: bool) -> Progress
    ensures { result ≡ first_progress count lap }
{
    Progress {
        visited_count: count,
        lap,
        ..Progress::default()
    }
}

// The first contact on the lent course, in a state of zeros; a refusal leaves it.
fn started(columns: Columns<'_>, settings: Settings, run: &mut Run) -> Result<StartValues, Cause>
    requires { view run.old ≡ zero_state full_words }
    ensures { begun result (view run.new)
        ≡ start_of full_words most_tiles (lent_columns columns.entry) settings }
{
    let stance = start_check(columns, settings)?;
    let n = settings.n;
    let course = Course {
        columns,
        n: n as usize,
    };
    let c = contact::full_contact(&stance, course, &mut run.credited, &mut run.wheels);
    let lap = lap::update_lap(false, c.zero, c.fresh, n, settings.share);
    run.setup = Setup {
        n,
        tick_limit: settings.limit,
        lap_share: settings.share,
        fallback: settings.fallback,
    };
    run.progress = first_progress(c.fresh, lap);
    numbers::put_poses(settings.poses, &mut run.poses);
    run.seed = settings.seed;
    Ok(StartValues {
        count: c.fresh,
        lap,
    })
}

// A run on the lent course, or a cause with the state of zeros.
pub fn start(columns: Columns<'_>, settings: Settings) -> Answered<StartValues>
    ensures { begun result.answer (view result.run)
        ≡ start_of full_words most_tiles (lent_columns columns.entry) settings }
{
    let mut run = Run::default();
    let answer = started(columns, settings, &mut run);
    Answered { answer, run }
}
