// The calls of a run: start, drive, settle, sheet, reward and replay. A host keeps its run where it stands: drive, settle and sheet take the
// small records by value, and the car, the sets and the last poses are lent as arrays of their lengths.
ghost use Rattle.std.specs.Prelude.{◌≡◌};
ghost use Rattle.course.specs.Grader.Outcome.{lent};
ghost use Rattle.run.specs.Grader.Widths.{full_words, most_tiles};
ghost use Rattle.run.specs.Grader.State.{columns};
ghost use Rattle.run.specs.Grader.Start.{start_of};
ghost use Rattle.run.specs.Grader.Sheet.{sheet_of};
ghost use Rattle.run.specs.Rules.Reward.{reward_of};
ghost use Rattle.certificate.specs.Grader.Replay.{replay_of};
ghost use Rattle.abi.specs.Grader.Flat.{flat_started, flat_sheet, flat_replayed, replay_columns, columns_after};
ghost use Rattle.abi.specs.Grader.InPlace.{driven_in_place, drive_in_place, settled_in_place, settle_in_place};

use crate::flat::{FlatDriven, FlatReplayed, FlatSettled, FlatSheet, FlatStarted, Poses};
use certificate::replay;
use certificate::replay::{AnswerColumns, CallColumns, Opening};
use course::lent::LentColumns;
use run::numbers::{CAR_NUMBERS, FORCE_NUMBERS, MOTION_NUMBERS, POSE_NUMBERS};
use run::reward::Weights;
use run::settle::Places;
use run::start::Settings;
use run::state::{Progress, Setup};
use run::touch::Columns;
use run::widths::{FULL_WORDS, WHEEL_WORDS};
use run::{drive, numbers, reward, settle, sheet, start};

// The figures of a run, ended or not.
#[unsafe(no_mangle)]
pub extern "C" fn grader_sheet_parts(setup: Setup, progress: Progress) -> FlatSheet
    ensures { result ≡ flat_sheet (sheet_of most_tiles setup progress) }
{
    FlatSheet::from(sheet::sheet(setup, progress))
}

// tile * new_tiles / max(n, 1) + step, or the off value alone.
#[unsafe(no_mangle)]
pub extern "C" fn grader_reward(weights: Weights, new_tiles: u32, n: u32, off: bool) -> f64
    ensures { result ≡ reward_of weights new_tiles n off }
{
    reward::reward(weights, new_tiles, n, off)
}

// A run on the lent course; the state of zeros where it is refused.
// Kept as a parameter for each column: the C interface lends them one by one.
#[unsafe(no_mangle)]
pub extern "C" fn grader_start(
    tiles: &[f64],
    offsets: &[u32],
    list: &[u32],
    n: u32,
    fallback: bool,
    seed: u64,
    share: f64,
    limit: u32,
    poses: Poses,
) -> FlatStarted
    ensures { result
        ≡ flat_started
        (start_of full_words most_tiles (columns tiles.now offsets.now list.now)
        (record { n = n; fallback = fallback; seed = seed; share = share; limit = limit; poses = poses.wheels })) }
{
    let poses = poses.wheels;
    let settings = Settings {
        n,
        fallback,
        seed,
        share,
        limit,
        poses,
    };
    let columns = Columns {
        tiles,
        offsets,
        list,
    };
    FlatStarted::from(start::start(columns, settings))
}

// Forces for the host: the car is changed where it stands and the forces are written. A refusal changes nothing.
// Kept as numbers, the car, the motions and the forces: the C interface lends them as arrays of their lengths.
// Kept as the parts of a run, handed on one by one to `drive_parts`: the C interface lends the parts, and a host keeps its run in place.
#[unsafe(no_mangle)]
pub extern "C" fn grader_drive_parts(
    setup: Setup,
    progress: Progress,
    car: &mut [f64; CAR_NUMBERS],
    wheels: &[u64; WHEEL_WORDS],
    action: u32,
    motions: &[f64; MOTION_NUMBERS],
    forces: &mut [f64; FORCE_NUMBERS],
) -> FlatDriven
    ensures { driven_in_place result car.new forces.new
        ≡ drive_in_place full_words most_tiles setup progress car.old wheels.now action
        motions.now forces.old }
{
    let mut next = progress;
    let mut after = numbers::car_from(car);
    let given = numbers::motions_from(motions);
    let said = drive::drive_parts(setup, &mut next, &mut after, wheels, action, given);
    let told = FlatDriven::from((said, next));
    if let Ok(pushes) = said {
        numbers::put_car(after, car);
        numbers::put_forces(pushes, forces);
    }
    told
}

// The contact after physics: the sets and the last poses are changed where they stand. A refusal changes nothing.
// Kept as a parameter for each column: the C interface lends them one by one.
// Kept as the parts of a run, handed on one by one to `settle_parts`: the C interface lends the parts, and a host keeps its run in place.
#[unsafe(no_mangle)]
#[tactic(auto, unfolding(crate::specs::Grader::InPlace::settle_in_place), using(crate::proofs::FlatLaws::settled_whole))]
pub extern "C" fn grader_settle_parts(
    setup: Setup,
    progress: Progress,
    credited: &mut [u64; FULL_WORDS],
    wheels: &mut [u64; WHEEL_WORDS],
    last: &mut [f64; POSE_NUMBERS],
    tiles: &[f64],
    offsets: &[u32],
    list: &[u32],
    x: f64,
    y: f64,
    poses: Poses,
) -> FlatSettled
    ensures { settled_in_place result credited.new wheels.new last.new
        ≡ settle_in_place full_words most_tiles setup progress credited.old wheels.old
        last.old (columns tiles.now offsets.now list.now) x y
        poses.wheels }
{
    let mut next = progress;
    let poses = poses.wheels;
    let places = Places { x, y, poses };
    let columns = Columns {
        tiles,
        offsets,
        list,
    };
    let said = settle::settle_parts(setup, &mut next, credited, wheels, last, columns, places);
    FlatSettled::from((said, next))
}

// A seed's course, a start on it and a whole list of calls, every answer written to the lent words and numbers.
// Kept as a parameter for each column: the C interface lends them one by one.
#[unsafe(no_mangle)]
#[tactic(auto, unfolding(crate::specs::Grader::Flat::flat_replayed, crate::specs::Grader::Flat::columns_after))]
pub extern "C" fn grader_replay(
    seed: u64,
    alpha: &mut [f64],
    beta: &mut [f64],
    x: &mut [f64],
    y: &mut [f64],
    tiles: &mut [f64],
    offsets: &mut [u32],
    list: &mut [u32],
    share: f64,
    limit: u32,
    poses: Poses,
    many: u32,
    calls: &[u32],
    given: &[f64],
    words: &mut [u32],
    numbers: &mut [f64],
) -> FlatReplayed
    ensures value { result
        ≡ flat_replayed (replay_of seed
        (lent alpha.old beta.old x.old y.old tiles.old
        offsets.old list.old) (record { share = share; limit = limit; poses = poses.wheels })
        many calls.now given.now words.old numbers.old) }
    ensures numbers_after { replay_columns (lent alpha.new beta.new x.new y.new tiles.new
        offsets.new list.new) words.new numbers.new
        ≡ columns_after (replay_of seed
        (lent alpha.old beta.old x.old y.old tiles.old
        offsets.old list.old) (record { share = share; limit = limit; poses = poses.wheels })
        many calls.now given.now words.old numbers.old) }
{
    let poses = poses.wheels;
    let cols = LentColumns {
        alpha,
        beta,
        x,
        y,
        tiles,
        offsets,
        list,
    };
    let opening = Opening {
        share,
        limit,
        poses,
    };
    let asked = CallColumns {
        many,
        words: calls,
        numbers: given,
    };
    let told = AnswerColumns { words, numbers };
    FlatReplayed::from(replay::replay(seed, cols, opening, asked, told))
}
