// The search for the next checkpoint (document 01, "Lay": `try_generate`).
ghost use Rattle.std.specs.Prelude.{◌≡◌};
ghost use Rattle.course.specs.Rules.Finder.{dest_of};
ghost use Rattle.course.specs.Steps.Lay.{found_as};

use crate::checkpoints::Checkpoint;
use crate::constants::TAU;

// A search passes over the checkpoints at most so often: from the place of the walk, and once more from the first.
const PASS_LIMIT: usize = 2;

// A checkpoint that was found, with its place, and alpha less the turns that the search took.
#[derive(Clone, Copy)]
pub(crate) struct Dest {
    pub index: usize,
    pub alpha: f64,
    pub checkpoint: Checkpoint,
}

// The first checkpoint from place `from` on whose angle alpha is not above. Past the last the search goes on from the
// first, with alpha one tau less; a third pass refuses.
// Kept as two loops, the inner one left by the label of the outer: document 01 names that form of the search, which "leaves both search
// loops the moment a checkpoint is found". And kept by index, since the proof did not close: of the first step of a
// `cs.iter().enumerate().skip(first)` a proof knows a run that is passed over, and not the place where it stands;
// the check alone did not find that, and a proof by hand was not written.
pub(crate) fn find(cs: &[Checkpoint], from: usize, alpha: f64) -> Option<Dest>
    ensures { found_as result ≡ dest_of cs.now from alpha }
{
    let mut found = None;
    let mut first = from;
    let mut a = alpha;
    'search: for _pass in 0..PASS_LIMIT {
        for index in first..cs.len() {
            let checkpoint = cs[index];
            if a <= checkpoint.angle {
                found = Some(Dest {
                    index,
                    alpha: a,
                    checkpoint,
                });
                break 'search;
            }
        }
        first = 0;
        a = a - TAU;
    }
    found
}
