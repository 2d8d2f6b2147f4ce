// The table of a save's fields (document 02, order 1), and the two of them that a seed may stand in (order 3).
ghost use Rattle.std.specs.Prelude.{◌≡◌, false};
ghost use Rattle.run.specs.Grader.Widths.{full_words};
ghost use Rattle.run.specs.Grader.Saved.{second_form};
ghost use Rattle.run.specs.Steps.Save.{seed_parts};
ghost use Rattle.run.specs.Steps.Load.{seed_in};

use crate::numbers::{CONTROL_NUMBERS, POSE_NUMBERS};
use crate::widths::FULL_WORDS;
use form::table::Row;

// How many fields there are.
pub(crate) const FIELDS: usize = 11;

// Where the fields begin, in bit order, when they lie end to end.
pub(crate) const SEED_AT: usize = 0;

pub(crate) const SHARE_AT: usize = SEED_AT + 4;

pub(crate) const LIMIT_AT: usize = SHARE_AT + 8;

pub(crate) const TICK_AT: usize = LIMIT_AT + 4;

pub(crate) const CREDITED_AT: usize = TICK_AT + 4;

pub(crate) const FLAGS_AT: usize = CREDITED_AT + 8 * FULL_WORDS;

pub(crate) const FUEL_AT: usize = FLAGS_AT + 1;

pub(crate) const CONTROLS_AT: usize = FUEL_AT + 8;

pub(crate) const POSES_AT: usize = CONTROLS_AT + 8 * CONTROL_NUMBERS;

pub(crate) const COUNT_AT: usize = POSES_AT + 8 * POSE_NUMBERS;

pub(crate) const WIDE_SEED_AT: usize = COUNT_AT + 2;

// How many bytes all of them have.
pub(crate) const ALL_BYTES: usize = WIDE_SEED_AT + 8;

// The least seed that four bytes do not hold.
const LEAST_WIDE: u64 = 1 << 32;

// The numbers of the two fields of a seed: four bytes in bit 0, or eight in bit 10.
#[derive(Clone, Copy)]
pub(crate) struct SeedParts {
    pub narrow: u64,
    pub wide: u64,
}

impl SeedParts {
    // A seed in its field, and 0 in the other.
    #[tactic(auto, unfolding(crate::specs::Steps::Save::seed_parts, crate::specs::Grader::Saved::narrow_part, crate::specs::Grader::Saved::wide_part))]
    pub(crate) fn of(seed: u64) -> SeedParts
        ensures { result ≡ seed_parts seed }
    {
        if seed < LEAST_WIDE {
            return SeedParts {
                narrow: seed,
                wide: 0,
            };
        }
        SeedParts {
            narrow: 0,
            wide: seed,
        }
    }

    // The seed that the two fields say, unless both of them stand, or the wide one is no wide seed (cause 11).
    #[tactic(auto, unfolding(crate::specs::Steps::Load::seed_in, crate::specs::Grader::Saved::seeds_ok, crate::specs::Grader::Saved::seed_from))]
    pub(crate) fn seed(self) -> Option<u64>
        ensures { result ≡ seed_in self }
    {
        if self.wide == 0 {
            return Some(self.narrow);
        }
        let alone = (self.narrow == 0) & (LEAST_WIDE <= self.wide);
        alone.then_some(self.wide)
    }
}

// A row whose field may not stand with zeros.
fn row(bytes: usize) -> Row
    ensures { result ≡ record { bytes = bytes; zeros = false } }
{
    Row {
        bytes,
        zeros: false,
    }
}

// How many bytes each field has, in bit order: up to where the next begins.
pub(crate) fn rows() -> [Row; FIELDS]
    ensures { result ≡ second_form full_words }
{
    [
        row(SHARE_AT - SEED_AT),
        row(LIMIT_AT - SHARE_AT),
        row(TICK_AT - LIMIT_AT),
        row(CREDITED_AT - TICK_AT),
        row(FLAGS_AT - CREDITED_AT),
        row(FUEL_AT - FLAGS_AT),
        row(CONTROLS_AT - FUEL_AT),
        row(POSES_AT - CONTROLS_AT),
        row(COUNT_AT - POSES_AT),
        row(WIDE_SEED_AT - COUNT_AT),
        row(ALL_BYTES - WIDE_SEED_AT),
    ]
}
