// The walk round the checkpoints, written into the lent columns (document 01, "Lay": `try_generate`).
ghost use Rattle.std.specs.Prelude.{◌≡◌};
ghost use Rattle.course.specs.Rules.Walk.{walk_start};
ghost use Rattle.course.specs.Steps.Lay.{walk_as, columns_of, SameColumns, Trod};

use crate::checkpoints::Checkpoint;
use crate::constants::{FAR_RAD, STEP_LIMIT};
use crate::step::Walk;
use crate::walk_columns::WalkColumns;
use crate::{step, trig};

// Where every walk starts.
fn start() -> Walk
    ensures { walk_as result ≡ walk_start }
{
    Walk {
        x: FAR_RAD,
        y: 0.0,
        beta: 0.0,
        dest: 0,
        laps: 0,
        visited: false,
    }
}

// At most STEP_LIMIT steps, until the fifth lap is done: how many were stored, none where one was refused.
// Kept by index: four `iter_mut`, zipped, are no plainer, and after such a loop over one column no proof knew what it holds (form's eight.rt).
pub(crate) fn walk_round(cs: &[Checkpoint; 12], cols: &mut WalkColumns) -> Option<usize>
    ensures same { SameColumns cols.old cols.new }
    ensures trod { Trod cs.now (columns_of cols.old) (columns_of cols.new) result }
{
    let mut w = start();
    let mut t = trig::quarter_turns(w.beta);
    for k in 0..STEP_LIMIT {
        let (p, next) = step::step(cs, w, t)?;
        cols.alpha[k] = p.alpha;
        cols.beta[k] = p.point.beta;
        cols.x[k] = p.point.x;
        cols.y[k] = p.point.y;
        if 4 < next.laps {
            return Some(k + 1);
        }
        w = next;
        t = trig::quarter_turns_from(w.beta, t);
    }
    Some(STEP_LIMIT)
}
