// What crosses the boundary: each answer as a struct of numbers, 0 and false where a case has none, and structs around
// the arrays that C cannot pass by value.
// Kept as numbers beside values: the C interface has no enum that holds a value, and a host is told a cause's number.
// Kept as fields of their own, where a call's answer is a struct already: host/grader.h names each field, in this order.
ghost use Rattle.std.specs.Prelude.{◌≡◌};
ghost use Rattle.run.specs.Grader.State.{view};
ghost use Rattle.run.specs.Grader.Start.{begun};
ghost use Rattle.abi.specs.Grader.Flat.{flat_laid, flat_curbs, flat_started, flat_driven, flat_settled, flat_sheet, flat_saved, flat_saved_for, flat_angle, flat_answers, flat_restored};
ghost use Rattle.run.specs.Grader.Restore.{after_restore};

use certificate::replay::Replayed;
use course::cause;
use course::cause::Cause;
use course::checkpoints::Checkpoint;
use course::points::{LaidCourse, LayError};
use run::dynamics::Force;
use run::restore::SavedFor;
use run::settle::SettleValues;
use run::sheet::RunSheet;
use run::start::StartValues;
use run::state::{Answered, Pose, Progress, Run};

// What lay and points answer: n, the list's length (at cause 3 the length needed), and the first point.
#[repr(C)]
#[derive(Clone, Copy)]
pub struct FlatLaid {
    pub cause: u32,
    pub n: u32,
    pub entries: u32,
    pub fallback: bool,
    pub beta: f64,
    pub x: f64,
    pub y: f64,
}

// What curbs answers.
#[repr(C)]
#[derive(Clone, Copy)]
pub struct FlatCurbs {
    pub cause: u32,
    pub count: u32,
}

// What start answers, and the state.
#[repr(C)]
#[derive(Clone, Copy)]
pub struct FlatStarted {
    pub cause: u32,
    pub count: u32,
    pub lap: bool,
    pub run: Run,
}

// What drive answers: the number of the cause, 0 where it wrote forces, and the progress after.
#[repr(C)]
#[derive(Clone, Copy)]
pub struct FlatDriven {
    pub cause: u32,
    pub progress: Progress,
}

// What settle answers, and the progress after.
#[repr(C)]
#[derive(Clone, Copy)]
pub struct FlatSettled {
    pub cause: u32,
    pub new_tiles: u32,
    pub n: u32,
    pub off: bool,
    pub lap: bool,
    pub ended: bool,
    pub progress: Progress,
}

// The run sheet.
#[repr(C)]
#[derive(Clone, Copy)]
pub struct FlatSheet {
    pub cause: u32,
    pub tick: u32,
    pub credited: u32,
    pub n: u32,
    pub share: u32,
    pub lap: bool,
    pub ended: bool,
    pub fallback: bool,
}

// What save answers: how many bytes it wrote.
#[repr(C)]
#[derive(Clone, Copy)]
pub struct FlatSaved {
    pub cause: u32,
    pub length: u32,
}

// What restore answers, and the state.
#[repr(C)]
#[derive(Clone, Copy)]
pub struct FlatRestored {
    pub cause: u32,
    pub run: Run,
}

// The course that saved bytes are of.
#[repr(C)]
#[derive(Clone, Copy)]
pub struct FlatSavedFor {
    pub cause: u32,
    pub n: u32,
    pub seed: u64,
}

// What sine, cosine and atan2 answer.
#[repr(C)]
#[derive(Clone, Copy)]
pub struct FlatAngle {
    pub cause: u32,
    pub value: f64,
}

// The answers of lay and start in a replay, and the sheet after its last call.
#[repr(C)]
#[derive(Clone, Copy)]
pub struct FlatReplayed {
    pub laid: FlatLaid,
    pub start_cause: u32,
    pub start_count: u32,
    pub start_lap: bool,
    pub sheet: FlatSheet,
}

// The poses of the four wheels.
#[repr(C)]
#[derive(Clone, Copy)]
pub struct Poses {
    pub wheels: [Pose; 4],
}

// Four corners, each x and y, in order round the quad.
#[repr(C)]
#[derive(Clone, Copy)]
pub struct Quad {
    pub corners: [[f64; 2]; 4],
}

// The twelve checkpoints of an attempt.
#[repr(C)]
#[derive(Clone, Copy)]
pub struct CheckpointList {
    pub checkpoints: [Checkpoint; 12],
}

// A draw, and the state to go on with.
#[repr(C)]
#[derive(Clone, Copy)]
pub struct Draw {
    pub value: u64,
    pub state: u64,
}

impl From<Result<LaidCourse, LayError>> for FlatLaid {
    ghost from_gives = { λ answer flat. flat ≡ flat_laid answer };

    // The answer of lay or points.
    #[tactic(auto, unfolding(crate::specs::Grader::Flat::flat_laid, course::specs::Grader::Outcome::laid_cause_of, course::specs::Grader::Outcome::laid_values_of, course::specs::Grader::Outcome::error_entries))]
    fn from(answer: Result<LaidCourse, LayError>) -> FlatLaid {
        let v = answer.unwrap_or_else(|error| LaidCourse {
            entries: error.entries(),
            ..LaidCourse::default()
        });
        FlatLaid {
            cause: cause::cause_number(&answer),
            n: v.n,
            entries: v.entries,
            fallback: v.fallback,
            beta: v.first.beta,
            x: v.first.x,
            y: v.first.y,
        }
    }
}

impl From<Result<u32, Cause>> for FlatCurbs {
    ghost from_gives = { λ answer flat. flat ≡ flat_curbs answer };

    // The answer of curbs.
    #[tactic(auto, unfolding(crate::specs::Grader::Flat::flat_curbs, course::specs::Grader::Curbs::curb_cause_of, course::specs::Grader::Curbs::curb_count_of, course::specs::Grader::Cause::cause_number))]
    fn from(answer: Result<u32, Cause>) -> FlatCurbs {
        FlatCurbs {
            cause: cause::cause_number(&answer),
            count: answer.unwrap_or(0),
        }
    }
}

// The answer of start, and the state.
impl From<Answered<StartValues>> for FlatStarted {
    ghost from_gives = { λ s f. f ≡ flat_started (begun s.answer (view s.run)) };

    #[tactic(auto, unfolding(crate::specs::Grader::Flat::flat_started, crate::specs::Grader::Flat::run_of, run::specs::Grader::State::view, course::specs::Grader::Cause::cause_number), using(crate::proofs::Zeros::start_or_zeros))]
    fn from(s: Answered<StartValues>) -> FlatStarted {
        let v = s.answer.unwrap_or_default();
        FlatStarted {
            cause: cause::cause_number(&s.answer),
            count: v.count,
            lap: v.lap,
            run: s.run,
        }
    }
}

// The answer of drive, whose forces are written apart, and the progress after.
impl From<(Result<[Force; 4], Cause>, Progress)> for FlatDriven {
    ghost from_gives = { λ d f. f ≡ flat_driven d.0 d.1 };

    #[tactic(auto, unfolding(crate::specs::Grader::Flat::flat_driven, course::specs::Grader::Cause::cause_number))]
    fn from(d: (Result<[Force; 4], Cause>, Progress)) -> FlatDriven {
        let (answer, progress) = d;
        FlatDriven {
            cause: cause::cause_number(&answer),
            progress,
        }
    }
}

// The answer of settle, and the progress after.
impl From<(Result<SettleValues, Cause>, Progress)> for FlatSettled {
    ghost from_gives = { λ s f. f ≡ flat_settled s.0 s.1 };

    #[tactic(auto, unfolding(crate::specs::Grader::Flat::flat_settled, course::specs::Grader::Cause::cause_number), using(crate::proofs::Zeros::settle_or_zeros))]
    fn from(s: (Result<SettleValues, Cause>, Progress)) -> FlatSettled {
        let (answer, progress) = s;
        let v = answer.unwrap_or_default();
        FlatSettled {
            cause: cause::cause_number(&answer),
            new_tiles: v.new_tiles,
            n: v.n,
            off: v.off,
            lap: v.lap,
            ended: v.ended,
            progress,
        }
    }
}

// The answer of sheet.
impl From<Result<RunSheet, Cause>> for FlatSheet {
    ghost from_gives = { λ a f. f ≡ flat_sheet a };

    #[tactic(auto, unfolding(crate::specs::Grader::Flat::flat_sheet, course::specs::Grader::Cause::cause_number), using(crate::proofs::Zeros::sheet_or_zeros))]
    fn from(answer: Result<RunSheet, Cause>) -> FlatSheet {
        let f = answer.unwrap_or_default();
        FlatSheet {
            cause: cause::cause_number(&answer),
            tick: f.tick,
            credited: f.credited,
            n: f.n,
            share: f.share,
            lap: f.lap,
            ended: f.ended,
            fallback: f.fallback,
        }
    }
}

// The answer of save.
impl From<Result<u32, Cause>> for FlatSaved {
    ghost from_gives = { λ a f. f ≡ flat_saved a };

    #[tactic(auto, unfolding(crate::specs::Grader::Flat::flat_saved, course::specs::Grader::Cause::cause_number))]
    fn from(answer: Result<u32, Cause>) -> FlatSaved {
        FlatSaved {
            cause: cause::cause_number(&answer),
            length: answer.unwrap_or(0),
        }
    }
}

// The answer of restore, and the state.
impl From<Answered<()>> for FlatRestored {
    ghost from_gives = { λ r f. f ≡ flat_restored (after_restore r.answer (view r.run)) };

    #[tactic(auto, unfolding(crate::specs::Grader::Flat::flat_restored, crate::specs::Grader::Flat::run_of, run::specs::Grader::State::view, course::specs::Grader::Cause::cause_number))]
    fn from(r: Answered<()>) -> FlatRestored {
        FlatRestored {
            cause: cause::cause_number(&r.answer),
            run: r.run,
        }
    }
}

// The answer of saved_course.
impl From<Result<SavedFor, Cause>> for FlatSavedFor {
    ghost from_gives = { λ a f. f ≡ flat_saved_for a };

    #[tactic(auto, unfolding(crate::specs::Grader::Flat::flat_saved_for, course::specs::Grader::Cause::cause_number), using(crate::proofs::Zeros::saved_or_zeros))]
    fn from(answer: Result<SavedFor, Cause>) -> FlatSavedFor {
        let v = answer.unwrap_or_default();
        FlatSavedFor {
            cause: cause::cause_number(&answer),
            n: v.n,
            seed: v.seed,
        }
    }
}

impl From<Result<f64, Cause>> for FlatAngle {
    ghost from_gives = { λ answer flat. flat ≡ flat_angle answer };

    // The answer of sine, cosine or atan2.
    fn from(answer: Result<f64, Cause>) -> FlatAngle {
        FlatAngle {
            cause: cause::cause_number(&answer),
            value: answer.unwrap_or(0.0),
        }
    }
}

// The answers of a replay.
impl From<Replayed> for FlatReplayed {
    ghost from_gives = { λ r f. f ≡ flat_answers r.laid r.start r.sheet };

    #[tactic(auto, unfolding(crate::specs::Grader::Flat::flat_answers, course::specs::Grader::Cause::cause_number), using(crate::proofs::Zeros::start_or_zeros))]
    fn from(r: Replayed) -> FlatReplayed {
        let v = r.start.unwrap_or_default();
        FlatReplayed {
            laid: FlatLaid::from(r.laid),
            start_cause: cause::cause_number(&r.start),
            start_count: v.count,
            start_lap: v.lap,
            sheet: FlatSheet::from(r.sheet),
        }
    }
}
