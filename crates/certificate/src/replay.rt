// The batch grader: a seed's course, a start and a whole list of drives and settles from lent columns, every answer whole
// (document 01, "The plain scorer").
ghost use Rattle.std.specs.Prelude.{◌≡◌, true, ◌++◌, ◌*◌, length, drop};
ghost use Rattle.run.specs.Grader.Widths.{full_words, most_tiles};
ghost use Rattle.run.specs.Grader.State.{view, lent_columns};
ghost use Rattle.run.specs.Grader.Start.{start_of};
ghost use Rattle.certificate.specs.Grader.Calls.{replies_of, state_after};
ghost use Rattle.certificate.specs.Grader.CallColumns.{answer_words, answer_numbers, all_words, all_numbers};
ghost use Rattle.certificate.specs.Steps.Replay.{first_lent, call_from, calls_to, Replies, StartsAndReplies};
ghost use Rattle.certificate.specs.Grader.Replay.{room_for, replay, replay_of};
ghost use Rattle.certificate.specs.Claim.Certificate.{settings_for};
ghost use Rattle.course.specs.Grader.Outcome.{lent_to, left_by};

use crate::answer::Encoded;
use course::cause::Cause;
use course::lay;
use course::lent::LentColumns;
use course::points::{LaidCourse, LayError};
use run::settle::Places;
use run::sheet::RunSheet;
use run::start::{Settings, StartValues};
use run::state::{Pose, Run};
use run::touch::Columns;
use run::{drive, numbers, settle, sheet, start};

// Words and numbers of a call, and of its answer.
pub const CALL_WORDS: usize = 4;

pub const CALL_NUMBERS: usize = numbers::MOTION_NUMBERS;

pub const ANSWER_WORDS: usize = 4;

pub const ANSWER_NUMBERS: usize = numbers::FORCE_NUMBERS;

// What a run starts with beside its course: lap share, tick limit and the wheels' poses.
#[derive(Clone, Copy)]
pub struct Opening {
    pub share: f64,
    pub limit: u32,
    pub poses: [Pose; 4],
}

impl Opening {
    // What start is told on a seed's course.
    fn on(self, course: LaidCourse, seed: u64) -> Settings
        ensures { result
            ≡ settings_for course.n (record { fallback = course.fallback; seed = seed })
            (record { share = self.share; limit = self.limit; poses = self.poses }) }
    {
        let poses = self.poses;
        Settings {
            n: course.n,
            fallback: course.fallback,
            seed,
            share: self.share,
            limit: self.limit,
            poses,
        }
    }
}

// So many calls, as a host lends them: four words and twenty numbers each, one call after the other. A host's columns may be short.
// Kept as a count beside two flat columns: the C interface lends words and numbers so, each apart and its length beside it.
#[derive(Clone, Copy)]
pub struct CallColumns<'a> {
    pub many: u32,
    pub words: &'a [u32],
    pub numbers: &'a [f64],
}

// The columns for their answers: four words and twelve numbers each.
// Kept as two flat columns: the C interface lends them so, as it does those of the calls.
#[derive(Drop)]
pub struct AnswerColumns<'a> {
    pub words: &'a mut [u32],
    pub numbers: &'a mut [f64],
}

// The answers of lay and start, and the sheet after the last call.
#[derive(Clone, Copy)]
pub struct Replayed {
    pub laid: Result<LaidCourse, LayError>,
    pub start: Result<StartValues, Cause>,
    pub sheet: Result<RunSheet, Cause>,
}

// The first of the lent tiles and offsets, as many as are asked for and there are, and the whole list.
fn first_lent(columns: Columns<'_>, tiles: u32, offsets: u32) -> Columns<'_>
    ensures { lent_columns result ≡ first_lent (lent_columns columns.entry) tiles offsets }
{
    let most = (tiles as usize).min(columns.tiles.len());
    let last = (offsets as usize).min(columns.offsets.len());
    Columns {
        tiles: &columns.tiles[..most],
        offsets: &columns.offsets[..last],
        list: columns.list,
    }
}

// The call that four words and twenty numbers hold, and its answer.
// Kept as a number: the first word of a call stands in a column of numbers that the C interface lends, and is looked at here alone.
#[tactic(auto, unfolding(crate::specs::Grader::Calls::reply_of))]
fn reply(
    run: &mut Run,
    columns: Columns<'_>,
    asked: &[u32; CALL_WORDS],
    given: &[f64; CALL_NUMBERS],
) -> Encoded
    ensures { Replies full_words most_tiles (view run.old)
        (call_from (lent_columns columns.entry) asked.now
        given.now) (view run.new) result }
{
    if asked[0] == 0 {
        let motions = numbers::motions_from(given);
        return Encoded::from(drive::drive(run, asked[1], motions));
    }
    let lent = first_lent(columns, asked[2], asked[3]);
    let places = Places {
        x: given[0],
        y: given[1],
        poses: numbers::settle_poses(given),
    };
    Encoded::from(settle::settle(run, lent, places))
}

// All calls in their order, each on the state that the one before it left, and their answers.
// Kept by place where answers are written: the library promises nothing of what a slice ends as after `as_chunks_mut` or
// `chunks_exact_mut`, and columns that are cut by `split_at_mut` and gone on with in a loop no proof of today's covers (tried).
#[tactic(auto, unfolding(crate::specs::Grader::Replay::room_for))]
fn replies(run: &mut Run, columns: Columns<'_>, calls: CallColumns<'_>, answers: AnswerColumns<'_>)
    requires { room_for calls.many (length calls.words.now)
        (length calls.numbers.now) (length answers.words.now)
        (length answers.numbers.now)
        ≡ true }
    ensures run_after { view run.new
        ≡ state_after full_words most_tiles (view run.old)
        (calls_to (lent_columns columns.entry) calls.entry.words.now
        calls.entry.numbers.now calls.entry.many) }
    ensures words_after { answers.exit.0.now
        ≡ all_words (replies_of full_words most_tiles (view run.old)
        (calls_to (lent_columns columns.entry) calls.entry.words.now
        calls.entry.numbers.now calls.entry.many))
        ++ drop (answer_words * calls.entry.many) answers.entry.words.now }
    ensures numbers_after { answers.exit.1.0.now
        ≡ all_numbers (replies_of full_words most_tiles (view run.old)
        (calls_to (lent_columns columns.entry) calls.entry.words.now
        calls.entry.numbers.now calls.entry.many))
        ++ drop (answer_numbers * calls.entry.many) answers.entry.numbers.now }
{
    let AnswerColumns { words, numbers } = answers;
    let (asked, _) = calls.words.as_chunks::<CALL_WORDS>();
    let (given, _) = calls.numbers.as_chunks::<CALL_NUMBERS>();
    let many = calls.many as usize;
    for (i, (call, given)) in asked[..many].iter().zip(given).enumerate() {
        let said = reply(run, columns, call, given);
        let w = ANSWER_WORDS * i;
        let n = ANSWER_NUMBERS * i;
        words[w..w + ANSWER_WORDS].copy_from_slice(&said.words);
        numbers[n..n + ANSWER_NUMBERS].copy_from_slice(&said.numbers);
    }
}

// The columns of calls and answers have room for so many calls.
#[tactic(auto, unfolding(crate::specs::Grader::Replay::room_for))]
fn room_for(calls: CallColumns<'_>, answers: &AnswerColumns<'_>) -> bool
    ensures { result
        ≡ room_for calls.entry.many (length calls.entry.words.now)
        (length calls.entry.numbers.now) (length answers.now.words.now)
        (length answers.now.numbers.now) }
{
    let n = calls.many as usize;
    CALL_WORDS * n <= calls.words.len()
        && CALL_NUMBERS * n <= calls.numbers.len()
        && ANSWER_WORDS * n <= answers.words.len()
        && ANSWER_NUMBERS * n <= answers.numbers.len()
}

// Starts a run on a laid course, answers so many calls, and tells the sheet after the last.
// Kept with the answers' columns taken apart and built again, here and in `replay`, since the proof did not close: where their struct is
// handed on whole, no proof knows at the return what its columns hold.
#[tactic(auto, unfolding(run::specs::Grader::State::view), using(crate::proofs::ReplayLaws::starts_and_replies))]
fn start_and_reply(
    columns: Columns<'_>,
    settings: Settings,
    calls: CallColumns<'_>,
    answers: AnswerColumns<'_>,
) -> (Result<StartValues, Cause>, Result<RunSheet, Cause>)
    requires { room_for calls.many (length calls.words.now)
        (length calls.numbers.now) (length answers.words.now)
        (length answers.numbers.now)
        ≡ true }
    ensures { StartsAndReplies (start_of full_words most_tiles (lent_columns columns.entry) settings)
        (calls_to (lent_columns columns.entry) calls.entry.words.now calls.entry.numbers.now calls.entry.many)
        calls.entry.many answers.entry.words.now answers.entry.numbers.now
        result.0 result.1 answers.exit.0.now answers.exit.1.0.now }
{
    let AnswerColumns { words, numbers } = answers;
    let s = start::start(columns, settings);
    let begun = s.answer;
    let mut run = s.run;
    replies(&mut run, columns, calls, AnswerColumns { words, numbers });
    (begun, sheet::sheet(run.setup, run.progress))
}

// Lays the seed's course, starts a run on it with its n, and answers so many calls. Refused by 2, before anything is laid, where a
// column of calls or answers is short. Where lay is refused, so is the start, and after a refused start every call.
// Kept with the lent columns taken apart and built again, since the proof did not close: `lay` takes their struct, three are read after it,
// and the borrow checker covers no column that is lent out of the struct where it stands (tried with `cols.alpha` and `&mut *cols.alpha`).
#[tactic(auto, unfolding(crate::specs::Grader::Replay::replay_of))]
pub fn replay(
    seed: u64,
    cols: LentColumns<'_>,
    opening: Opening,
    calls: CallColumns<'_>,
    answers: AnswerColumns<'_>,
) -> Replayed
    ensures { replay result.laid result.start result.sheet
        (left_by cols.exit) answers.exit.0.now answers.exit.1.0.now
        ≡ replay_of seed
        (lent_to cols.entry)
        (record { share = opening.share; limit = opening.limit; poses = opening.poses })
        calls.entry.many calls.entry.words.now calls.entry.numbers.now
        answers.entry.words.now answers.entry.numbers.now }
{
    if !room_for(calls, &answers) {
        return Replayed {
            laid: Err(LayError::Refused(Cause::Length)),
            start: Err(Cause::Length),
            sheet: Err(Cause::State),
        };
    }
    let LentColumns {
        alpha,
        beta,
        x,
        y,
        tiles,
        offsets,
        list,
    } = cols;
    let laid = lay::lay(
        seed,
        LentColumns {
            alpha,
            beta,
            x,
            y,
            tiles,
            offsets,
            list,
        },
    );
    let columns = Columns {
        tiles,
        offsets,
        list,
    };
    let settings = opening.on(laid.unwrap_or_default(), seed);
    let AnswerColumns { words, numbers } = answers;
    let answers = AnswerColumns { words, numbers };
    let (start, sheet) = start_and_reply(columns, settings, calls, answers);
    Replayed { laid, start, sheet }
}
