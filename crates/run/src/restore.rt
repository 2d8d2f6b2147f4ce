// The call `restore`: a run from the bytes of a save, on its course; and `saved_course`, which course that is (document 02, order 1).
ghost use Rattle.std.specs.Prelude.{◌≡◌, Some};
ghost use Rattle.run.specs.Grader.Widths.{full_words, most_tiles};
ghost use Rattle.run.specs.Grader.State.{view, lent_columns};
ghost use Rattle.run.specs.Grader.Numbers.{poses_at};
ghost use Rattle.run.specs.Grader.Start.{zero_state};
ghost use Rattle.run.specs.Grader.Restore.{run_from, after_restore, restore_of, saved_course_of, restore_check};
ghost use Rattle.run.specs.Steps.Load.{fields_as};
ghost use Rattle.run.specs.Steps.Stand.{StanceOr};

use crate::load::SavedRun;
use crate::quad::Stance;
use crate::state::{Answered, Progress, Run, Setup};
use crate::touch::{Columns, Course};
use crate::widths::{FULL_WORDS, WHEEL_WORDS};
use crate::{contact, load, numbers, words};
use course::cause::Cause;

// A course's seed and its tile count.
#[derive(Clone, Copy, Default)]
pub struct SavedFor {
    pub seed: u64,
    pub n: u32,
}

// Where the wheels stand at the last poses, or the first of the causes 12, 2 and 10 that holds of what was saved and of the lent course.
#[tactic(auto, unfolding(crate::specs::Grader::Restore::restore_check))]
fn restore_check(f: SavedRun, columns: Columns<'_>, n: u32) -> Result<Stance, Cause>
    ensures { StanceOr (restore_check (lent_columns columns.entry) n (Some (fields_as f)))
        (poses_at f.poses 0) result }
{
    if n != f.n {
        return Err(Cause::Course);
    }
    if columns.is_short(n) {
        return Err(Cause::Length);
    }
    columns.stand(n as usize, numbers::poses_from(&f.poses))
}

// The saved run, whose wheels touch these sets; so many tiles are credited as the saved set has.
fn run_of(f: SavedRun, wheels: [u64; WHEEL_WORDS]) -> Run
    ensures { view result ≡ run_from (fields_as f) f.credited wheels }
{
    let count = words::count(&f.credited);
    let setup = Setup {
        n: f.n,
        tick_limit: f.limit,
        lap_share: f.share,
        fallback: f.fallback,
    };
    let progress = Progress {
        visited_count: count,
        tick: f.tick,
        lap: f.lap,
        ended: f.ended,
        driven: false,
    };
    let car = f.car;
    let credited = f.credited;
    let poses = f.poses;
    Run {
        setup,
        progress,
        car,
        credited,
        wheels,
        poses,
        seed: f.seed,
    }
}

// The run that was saved, on the lent course. What the wheels touch at the last poses is found anew; what they would credit there is dropped. A refusal leaves the state of zeros.
fn restored(bytes: &[u8], columns: Columns<'_>, n: u32, run: &mut Run) -> Result<(), Cause>
    requires { view run.old ≡ zero_state full_words }
    ensures { after_restore result (view run.new)
        ≡ restore_of full_words most_tiles bytes.now
        (lent_columns columns.entry) n }
{
    let f = load::load(bytes).ok_or(Cause::Form)?;
    let stance = restore_check(f, columns, n)?;
    let mut scratch = [0u64; FULL_WORDS];
    let mut wheels = [0u64; WHEEL_WORDS];
    let course = Course {
        columns,
        n: n as usize,
    };
    contact::full_contact(&stance, course, &mut scratch, &mut wheels);
    *run = run_of(f, wheels);
    Ok(())
}

// The run that was saved, on the lent course, or a cause with the state of zeros.
pub fn restore(bytes: &[u8], columns: Columns<'_>, n: u32) -> Answered<()>
    ensures { after_restore result.answer (view result.run)
        ≡ restore_of full_words most_tiles bytes.now
        (lent_columns columns.entry) n }
{
    let mut run = Run::default();
    let answer = restored(bytes, columns, n, &mut run);
    Answered { answer, run }
}

// The course of the run that was saved.
pub fn saved_course(bytes: &[u8]) -> Result<SavedFor, Cause>
    ensures { result ≡ saved_course_of full_words most_tiles bytes.now }
{
    let f = load::load(bytes).ok_or(Cause::Form)?;
    Ok(SavedFor {
        seed: f.seed,
        n: f.n,
    })
}
