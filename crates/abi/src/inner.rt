// Inner steps of the grader, for comparisons with the reference only.
// Kept as a parameter for each column: the C interface lends them one by one.
ghost use Rattle.std.specs.Prelude.{◌≡◌};
ghost use Rattle.course.specs.Grader.Outcome.{lent};
ghost use Rattle.course.specs.Grader.LayCall.{lay_call, lay_on_call};
ghost use Rattle.run.specs.Rules.Overlap.{overlap_of};
ghost use Rattle.abi.specs.Grader.Flat.{flat_laid};

use crate::flat::{CheckpointList, FlatLaid, Quad};
use course::lay;
use course::lent::LentColumns;
use run::quad;

// The course of a seed with so many attempts.
#[unsafe(no_mangle)]
#[tactic(auto, using(crate::proofs::FlatLaws::laid_whole))]
pub extern "C" fn grader_lay_attempts(
    attempts: u32,
    seed: u64,
    alpha: &mut [f64],
    beta: &mut [f64],
    x: &mut [f64],
    y: &mut [f64],
    tiles: &mut [f64],
    offsets: &mut [u32],
    list: &mut [u32],
) -> FlatLaid
    ensures value { result
        ≡ flat_laid (lay_call attempts seed
        (lent alpha.old beta.old x.old y.old tiles.old
        offsets.old list.old)).answer }
    ensures list_after { lent alpha.new beta.new x.new y.new tiles.new
        offsets.new list.new
        ≡ (lay_call attempts seed
        (lent alpha.old beta.old x.old y.old tiles.old
        offsets.old list.old)).lent }
{
    let cols = LentColumns {
        alpha,
        beta,
        x,
        y,
        tiles,
        offsets,
        list,
    };
    FlatLaid::from(lay::lay_attempts(attempts, seed, cols))
}

// The course of one attempt with given checkpoints, the ring where that attempt is refused.
#[unsafe(no_mangle)]
#[tactic(auto, using(crate::proofs::FlatLaws::laid_whole))]
pub extern "C" fn grader_lay_checkpoints(
    cs: CheckpointList,
    alpha: &mut [f64],
    beta: &mut [f64],
    x: &mut [f64],
    y: &mut [f64],
    tiles: &mut [f64],
    offsets: &mut [u32],
    list: &mut [u32],
) -> FlatLaid
    ensures value { result
        ≡ flat_laid (lay_on_call cs.checkpoints
        (lent alpha.old beta.old x.old y.old tiles.old
        offsets.old list.old)).answer }
    ensures list_after { lent alpha.new beta.new x.new y.new tiles.new
        offsets.new list.new
        ≡ (lay_on_call cs.checkpoints
        (lent alpha.old beta.old x.old y.old tiles.old
        offsets.old list.old)).lent }
{
    let cols = LentColumns {
        alpha,
        beta,
        x,
        y,
        tiles,
        offsets,
        list,
    };
    FlatLaid::from(lay::lay_checkpoints(cs.checkpoints, cols))
}

// Whether two quads overlap.
#[unsafe(no_mangle)]
pub extern "C" fn grader_overlap(a: Quad, b: Quad) -> bool
    ensures { result ≡ overlap_of a.corners b.corners }
{
    quad::quad_overlap(a.corners, b.corners)
}
