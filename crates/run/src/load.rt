// What saved bytes say of a run, or that they are refused (document 02, orders 1 and 3, cause 11).
ghost use Rattle.std.specs.Prelude.{◌≡◌, [], ◌∷◌, ◌++◌, take, drop, option_map};
ghost use Rattle.form.specs.Rules.Bytes.{number, words_from, floats_from};
ghost use Rattle.form.specs.Rules.Form.{cut};
ghost use Rattle.run.specs.Grader.Widths.{full_words, most_tiles};
ghost use Rattle.run.specs.Grader.Numbers.{control_count, pose_count, car_numbers};
ghost use Rattle.run.specs.Grader.Saved.{field_bytes, float_in, fields_with, sound_fields, loaded};
ghost use Rattle.run.specs.Steps.Load.{seeds_read, fields_as, saved_field};

use crate::numbers::{CAR_NUMBERS, CONTROL_NUMBERS, POSE_NUMBERS};
use crate::saved::{
    ALL_BYTES, CONTROLS_AT, COUNT_AT, CREDITED_AT, FLAGS_AT, FUEL_AT, LIMIT_AT, POSES_AT, SEED_AT,
    SHARE_AT, SeedParts, TICK_AT, WIDE_SEED_AT,
};
use crate::state::Car;
use crate::widths::{FULL_WORDS, MOST_TILES};
use crate::{numbers, saved, start, state, words};
use form::eight::Eight;
use form::{eight, number, unpack};

// What a save keeps of a run.
// Kept with the poses as sixteen numbers, which is no plainer as four: `run_of` copies them into a `Run`, which has them so (state.rt).
#[derive(Clone, Copy)]
pub(crate) struct SavedRun {
    pub seed: u64,
    pub share: f64,
    pub limit: u32,
    pub tick: u32,
    pub credited: [u64; FULL_WORDS],
    pub lap: bool,
    pub ended: bool,
    pub fallback: bool,
    pub car: Car,
    pub poses: [f64; POSE_NUMBERS],
    pub n: u32,
}

// The number of the four bytes from `at` on.
fn four_at(full: &[u8; ALL_BYTES], at: usize) -> u32
    ensures { result ≡ number (take 4 (drop at full.now)) }
{
    number::number_at(full, at, 4) as u32
}

// The float of the eight bytes from `at` on.
#[tactic(auto, unfolding(form::specs::Rules::Bytes::each_from))]
fn float_at(full: &[u8; ALL_BYTES], at: usize) -> f64
    ensures { result ≡ float_in (take 8 (drop at full.now)) }
{
    f64::of_number(number::number_at(full, at, 8))
}

// The credited tiles, field 4.
fn credited_in(full: &[u8; ALL_BYTES]) -> [u64; FULL_WORDS]
    ensures { result ≡ words_from full_words (saved_field full.now 4) }
{
    let mut set = [0u64; FULL_WORDS];
    eight::read(&full[CREDITED_AT..FLAGS_AT], &mut set).unwrap();
    set
}

// The car: the controls, field 7, and the fuel, field 6.
fn car_in(full: &[u8; ALL_BYTES]) -> Car
    ensures { car_numbers result
        ≡ floats_from control_count (saved_field full.now 7)
        ++ (float_in (saved_field full.now 6) ∷ []) }
{
    let mut car = [0.0; CAR_NUMBERS];
    eight::read(&full[CONTROLS_AT..POSES_AT], &mut car[..CONTROL_NUMBERS]).unwrap();
    car[CONTROL_NUMBERS] = float_at(full, FUEL_AT);
    numbers::car_from(&car)
}

// The last poses' numbers, field 8.
fn poses_in(full: &[u8; ALL_BYTES]) -> [f64; POSE_NUMBERS]
    ensures { result ≡ floats_from pose_count (saved_field full.now 8) }
{
    let mut poses = [0.0; POSE_NUMBERS];
    eight::read(&full[POSES_AT..COUNT_AT], &mut poses).unwrap();
    poses
}

// The seed's two fields, 0 and 10.
fn seeds_in(full: &[u8; ALL_BYTES]) -> SeedParts
    ensures { result ≡ seeds_read (saved_field full.now 0) (saved_field full.now 10) }
{
    let narrow = number::number_at(full, SEED_AT, 4);
    let wide = number::number_at(full, WIDE_SEED_AT, 8);
    SeedParts { narrow, wide }
}

// The fields as they lie end to end, of a run with this seed.
fn fields_in(seed: u64, full: &[u8; ALL_BYTES]) -> SavedRun
    ensures { fields_as result ≡ fields_with seed full_words (cut (field_bytes full_words) full.now) }
{
    let share = float_at(full, SHARE_AT);
    let limit = four_at(full, LIMIT_AT);
    let tick = four_at(full, TICK_AT);
    let credited = credited_in(full);
    let flags = full[FLAGS_AT];
    let car = car_in(full);
    let poses = poses_in(full);
    let n = number::number_at(full, COUNT_AT, 2) as u32;
    SavedRun {
        seed,
        share,
        limit,
        tick,
        credited,
        lap: flags % 2 == 1,
        ended: flags / 2 % 2 == 1,
        fallback: flags / 4 % 2 == 1,
        car,
        poses,
        n,
    }
}

// Settings, poses and tile count are in range, no credited tile is at or past the tile count, and the tick is not past the limit.
fn is_sound(f: SavedRun) -> bool
    ensures { result ≡ sound_fields most_tiles (fields_as f) }
{
    let poses = numbers::poses_from(&f.poses);
    let settings = start::settings_ok(f.share, f.limit);
    let count = state::count_ok(MOST_TILES, f.n);
    let tiles = words::all_below(&f.credited, f.n as usize);
    settings & (count & (state::poses_ok(poses) & (tiles & (f.tick <= f.limit))))
}

// What the bytes say, if they are not refused; no field of theirs may stand with zeros, flags above 7 are unknown, and one seed stands at most.
pub(crate) fn load(bytes: &[u8]) -> Option<SavedRun>
    ensures { option_map fields_as result ≡ loaded full_words most_tiles bytes.now }
{
    let rows = saved::rows();
    let mut full = [0u8; ALL_BYTES];
    unpack::unpack(&rows, bytes, &mut full)?;
    let seed = seeds_in(&full).seed()?;
    let fields = fields_in(seed, &full);
    let known = full[FLAGS_AT] < 8;
    (known & is_sound(fields)).then_some(fields)
}
