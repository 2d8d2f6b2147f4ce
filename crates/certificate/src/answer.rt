// An answer as it stands in its columns: four words and twelve numbers.
// Kept as numbers: what an answer is, its first word says, in a column of numbers that the C interface lends.
ghost use Rattle.std.specs.Prelude.{◌≡◌};
ghost use Rattle.certificate.specs.Rules.Answers.Answer.{refused};
ghost use Rattle.certificate.specs.Grader.Calls.{drive_said, settle_said};
ghost use Rattle.course.specs.Grader.Cause.{number_of};
ghost use Rattle.certificate.specs.Steps.Replay.{encoded};

use crate::replay::{ANSWER_NUMBERS, ANSWER_WORDS};
use course::cause::{Cause, Numbered};
use run::dynamics::Force;
use run::numbers;
use run::save::flags_of;
use run::settle::SettleValues;

// One answer's words and numbers, a value of its own for every answer; `AnswerColumns` lends those of all.
#[derive(Clone, Copy)]
pub(crate) struct Encoded {
    pub words: [u32; ANSWER_WORDS],
    pub numbers: [f64; ANSWER_NUMBERS],
}

impl From<Cause> for Encoded {
    ghost from_gives = { λ cause result. result ≡ encoded (refused (number_of cause)) };

    // A refusal, which has no numbers.
    fn from(cause: Cause) -> Encoded {
        Encoded {
            words: [2, cause.number(), 0, 0],
            numbers: [0.0; ANSWER_NUMBERS],
        }
    }
}

impl From<Result<[Force; 4], Cause>> for Encoded {
    ghost from_gives = { λ answer result. result ≡ encoded (drive_said answer) };

    // The answer to a drive.
    fn from(answer: Result<[Force; 4], Cause>) -> Encoded {
        match answer {
            Ok(forces) => {
                let mut numbers = [0.0; ANSWER_NUMBERS];
                numbers::put_forces(forces, &mut numbers);
                Encoded {
                    words: [0; ANSWER_WORDS],
                    numbers,
                }
            }
            Err(cause) => Encoded::from(cause),
        }
    }
}

impl From<Result<SettleValues, Cause>> for Encoded {
    ghost from_gives = { λ answer result. result ≡ encoded (settle_said answer) };

    // The answer to a settle.
    #[tactic(auto, unfolding(run::specs::Grader::Saved::flags_of))]
    fn from(answer: Result<SettleValues, Cause>) -> Encoded {
        match answer {
            Ok(v) => Encoded {
                words: [1, v.new_tiles, v.n, flags_of(v.off, v.lap, v.ended)],
                numbers: [0.0; ANSWER_NUMBERS],
            },
            Err(cause) => Encoded::from(cause),
        }
    }
}
