// The run sheet (document 01, "Beside the run"; after the Rust's `summary`).
ghost use Rattle.std.specs.Prelude.{◌≡◌, ◌≤◌, ◌<◌};
ghost use Rattle.run.specs.Grader.Widths.{most_tiles};
ghost use Rattle.run.specs.Grader.Sheet.{share_of, sheet_of};

use crate::state;
use crate::state::{Progress, Setup};
use crate::widths::MOST_TILES;
use course::cause::Cause;

// The figures of a run.
#[repr(C)]
#[derive(Clone, Copy, Default)]
pub struct RunSheet {
    pub tick: u32,
    pub credited: u32,
    pub n: u32,
    pub lap: bool,
    pub ended: bool,
    pub fallback: bool,
    // Thousandths of the course, rounded down.
    pub share: u32,
}

// 1000 * credited / n, rounded down. In 64 bits no count is too great for the product.
#[tactic(auto, unfolding(crate::specs::Grader::Sheet::share_of))]
fn share(credited: u32, n: u32) -> u32
    requires { (0 < n) × (credited ≤ n) }
    ensures { result ≡ share_of credited n }
{
    (1000 * u64::from(credited) / u64::from(n)) as u32
}

// The figures of a run, ended or not; refused where its counts are not those of a run. They are read from what start fixed and what
// settle changed.
#[tactic(auto, unfolding(crate::specs::Grader::Sheet::sheet_of, crate::specs::Grader::Sheet::figures_of, crate::specs::Grader::State::unfit))]
pub fn sheet(setup: Setup, progress: Progress) -> Result<RunSheet, Cause>
    ensures { result ≡ sheet_of most_tiles setup progress }
{
    if state::is_unfit(MOST_TILES, setup, progress) {
        return Err(Cause::State);
    }
    Ok(RunSheet {
        tick: progress.tick,
        credited: progress.visited_count,
        n: setup.n,
        lap: progress.lap,
        ended: progress.ended,
        fallback: setup.fallback,
        share: share(progress.visited_count, setup.n),
    })
}
