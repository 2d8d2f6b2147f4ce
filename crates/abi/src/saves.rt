// The calls that keep a run between ticks: save, restore and saved_course. A save is handed the run, and its output is lent; a restore is lent
// the saved bytes and the course, and returns the run.
ghost use Rattle.std.specs.Prelude.{◌≡◌};
ghost use Rattle.run.specs.Grader.Widths.{full_words, most_tiles};
ghost use Rattle.run.specs.Grader.State.{view, columns};
ghost use Rattle.run.specs.Grader.Save.{save_of};
ghost use Rattle.run.specs.Grader.Restore.{restore_of, saved_course_of};
ghost use Rattle.abi.specs.Grader.Flat.{saved_out, flat_save, flat_restored, flat_saved_for};

use crate::flat::{FlatRestored, FlatSaved, FlatSavedFor};
use run::state::Run;
use run::touch::Columns;
use run::{restore, save};

// The run's saved form goes to the front of the output. A refusal writes nothing.
#[unsafe(no_mangle)]
#[tactic(auto, unfolding(crate::specs::Grader::Flat::flat_save))]
pub extern "C" fn grader_save(run: Run, out: &mut [u8]) -> FlatSaved
    ensures { saved_out result out.new ≡ flat_save (save_of most_tiles (view run) out.old) }
{
    FlatSaved::from(save::save(run, out))
}

// The run that was saved, on the lent course; the state of zeros where it is refused.
// Kept as a parameter for each column: the C interface lends them one by one.
#[unsafe(no_mangle)]
pub extern "C" fn grader_restore(
    bytes: &[u8],
    tiles: &[f64],
    offsets: &[u32],
    list: &[u32],
    n: u32,
) -> FlatRestored
    ensures { result
        ≡ flat_restored (restore_of full_words most_tiles bytes.now
        (columns tiles.now offsets.now list.now) n) }
{
    let columns = Columns {
        tiles,
        offsets,
        list,
    };
    FlatRestored::from(restore::restore(bytes, columns, n))
}

// The seed and tile count of the course that saved bytes are of.
#[unsafe(no_mangle)]
pub extern "C" fn grader_saved_course(bytes: &[u8]) -> FlatSavedFor
    ensures { result ≡ flat_saved_for (saved_course_of full_words most_tiles bytes.now) }
{
    FlatSavedFor::from(restore::saved_course(bytes))
}
