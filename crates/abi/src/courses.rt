// The calls that make a course: lay, points and curbs. The columns are lent by the caller.
// Kept as a parameter for each column: the C interface lends them one by one.
ghost use Rattle.std.specs.Prelude.{◌≡◌};
ghost use Rattle.course.specs.Rules.Constants.{max_attempts};
ghost use Rattle.course.specs.Grader.Outcome.{lent};
ghost use Rattle.course.specs.Grader.LayCall.{lay_call};
ghost use Rattle.course.specs.Grader.Points.{points_call};
ghost use Rattle.course.specs.Grader.Curbs.{curbs_call};
ghost use Rattle.abi.specs.Grader.Flat.{flat_laid, flat_curbs};

use crate::flat::{FlatCurbs, FlatLaid};
use course::lent::LentColumns;
use course::{curbs, lay, points};

// The course of a seed in the lent columns.
#[unsafe(no_mangle)]
#[tactic(auto, using(crate::proofs::FlatLaws::laid_whole))]
pub extern "C" fn grader_lay(
    seed: u64,
    alpha: &mut [f64],
    beta: &mut [f64],
    x: &mut [f64],
    y: &mut [f64],
    tiles: &mut [f64],
    offsets: &mut [u32],
    list: &mut [u32],
) -> FlatLaid
    ensures value { result
        ≡ flat_laid (lay_call max_attempts seed
        (lent alpha.old beta.old x.old y.old tiles.old
        offsets.old list.old)).answer }
    ensures list_after { lent alpha.new beta.new x.new y.new tiles.new
        offsets.new list.new
        ≡ (lay_call max_attempts seed
        (lent alpha.old beta.old x.old y.old tiles.old
        offsets.old list.old)).lent }
{
    let cols = LentColumns {
        alpha,
        beta,
        x,
        y,
        tiles,
        offsets,
        list,
    };
    FlatLaid::from(lay::lay(seed, cols))
}

// The course of the given points in the lent columns.
#[unsafe(no_mangle)]
#[tactic(auto, using(crate::proofs::FlatLaws::laid_whole))]
pub extern "C" fn grader_points(
    given_beta: &[f64],
    given_x: &[f64],
    given_y: &[f64],
    count: u32,
    alpha: &mut [f64],
    beta: &mut [f64],
    x: &mut [f64],
    y: &mut [f64],
    tiles: &mut [f64],
    offsets: &mut [u32],
    list: &mut [u32],
) -> FlatLaid
    ensures value { result
        ≡ flat_laid (points_call given_beta.now given_x.now given_y.now count
        (lent alpha.old beta.old x.old y.old tiles.old
        offsets.old list.old)).answer }
    ensures list_after { lent alpha.new beta.new x.new y.new tiles.new
        offsets.new list.new
        ≡ (points_call given_beta.now given_x.now given_y.now count
        (lent alpha.old beta.old x.old y.old tiles.old
        offsets.old list.old)).lent }
{
    let cols = LentColumns {
        alpha,
        beta,
        x,
        y,
        tiles,
        offsets,
        list,
    };
    FlatLaid::from(points::points(given_beta, given_x, given_y, count, cols))
}

// The curbs of the given points in the lent columns.
#[unsafe(no_mangle)]
#[tactic(auto, using(crate::proofs::FlatLaws::curbs_whole))]
pub extern "C" fn grader_curbs(
    beta: &[f64],
    x: &[f64],
    y: &[f64],
    count: u32,
    quads: &mut [f64],
    white: &mut [u8],
) -> FlatCurbs
    ensures value { result
        ≡ flat_curbs (curbs_call beta.now x.now y.now count quads.old
        white.old).answer }
    ensures quads_after { quads.new
        ≡ (curbs_call beta.now x.now y.now count quads.old
        white.old).quads }
    ensures white_after { white.new
        ≡ (curbs_call beta.now x.now y.now count quads.old
        white.old).white }
{
    FlatCurbs::from(curbs::curbs(beta, x, y, count, quads, white))
}
