// The call `save`: a run between ticks as bytes (document 02, orders 1 and 3).
ghost use Rattle.std.specs.Prelude.{◌≡◌, ◌++◌, take, drop};
ghost use Rattle.form.specs.Rules.Form.{joined};
ghost use Rattle.run.specs.Grader.Widths.{most_tiles};
ghost use Rattle.run.specs.Grader.State.{view};
ghost use Rattle.run.specs.Grader.Numbers.{control_count, car_numbers};
ghost use Rattle.run.specs.Grader.Saved.{fields_of, flags_of, bytes_of};
ghost use Rattle.run.specs.Grader.Save.{save_check, after_save, save_of};
ghost use Rattle.run.specs.Steps.Save.{first_fields, last_fields, first_bytes, last_from};

use crate::numbers::{CAR_NUMBERS, CONTROL_NUMBERS, POSE_NUMBERS};
use crate::saved::{
    ALL_BYTES, CONTROLS_AT, COUNT_AT, CREDITED_AT, FLAGS_AT, FUEL_AT, LIMIT_AT, POSES_AT, SEED_AT,
    SHARE_AT, SeedParts, TICK_AT, WIDE_SEED_AT,
};
use crate::state::{Car, Progress, Run, Setup};
use crate::widths::MOST_TILES;
use crate::{numbers, saved, state};
use course::cause::Cause;
use form::table::Fields;
use form::{eight, number, pack, table};

// The room of the longest form: the map, and every field but the narrow seed's four bytes, where the wide one stands (cause 2).
pub const SAVE_ROOM: usize = 2 + ALL_BYTES - 4;

// Refused by the first of the causes 4, 5 and 2 that holds.
#[tactic(auto, unfolding(crate::specs::Grader::Save::save_check))]
fn save_check(setup: Setup, progress: Progress, room: usize) -> Result<(), Cause>
    ensures { result ≡ save_check most_tiles setup progress room }
{
    if state::is_unfit(MOST_TILES, setup, progress) {
        return Err(Cause::State);
    }
    if progress.driven {
        return Err(Cause::Turn);
    }
    if room < SAVE_ROOM {
        return Err(Cause::Length);
    }
    Ok(())
}

// Three flags as bits of a byte, the first the lowest.
#[tactic(auto, unfolding(crate::specs::Grader::Saved::flags_of))]
pub fn flags_of(first: bool, second: bool, third: bool) -> u32
    ensures { result ≡ flags_of first second third }
{
    u32::from(first) + 2 * u32::from(second) + 4 * u32::from(third)
}

// Narrow seed, lap share, tick limit and tick, at the front of the bytes of all fields.
fn put_first(narrow: u64, share: f64, limit: u32, tick: u32, full: &mut [u8; ALL_BYTES])
    ensures { full.new ≡ joined (first_fields narrow share limit tick) ++ drop first_bytes full.old }
{
    number::put_number(narrow, 4, &mut full[SEED_AT..SHARE_AT]).unwrap();
    eight::put(&[share], &mut full[SHARE_AT..LIMIT_AT]).unwrap();
    number::put_number(u64::from(limit), 4, &mut full[LIMIT_AT..TICK_AT]).unwrap();
    number::put_number(u64::from(tick), 4, &mut full[TICK_AT..CREDITED_AT]).unwrap();
}

// Flags, fuel, controls, poses, tile count and wide seed, behind the credited tiles.
fn put_last(
    flags: u64,
    car: Car,
    poses: &[f64; POSE_NUMBERS],
    n: u32,
    wide: u64,
    full: &mut [u8; ALL_BYTES],
)
    ensures { full.new
        ≡ take last_from full.old
        ++ joined
        (last_fields flags car.fuel_spent (take control_count (car_numbers car)) poses.now n wide) }
{
    let mut numbers = [0.0; CAR_NUMBERS];
    numbers::put_car(car, &mut numbers);
    number::put_number(flags, 1, &mut full[FLAGS_AT..FUEL_AT]).unwrap();
    eight::put(&[car.fuel_spent], &mut full[FUEL_AT..CONTROLS_AT]).unwrap();
    eight::put(
        &numbers[..CONTROL_NUMBERS],
        &mut full[CONTROLS_AT..POSES_AT],
    )
    .unwrap();
    eight::put(poses, &mut full[POSES_AT..COUNT_AT]).unwrap();
    number::put_number(u64::from(n), 2, &mut full[COUNT_AT..WIDE_SEED_AT]).unwrap();
    number::put_number(wide, 8, &mut full[WIDE_SEED_AT..ALL_BYTES]).unwrap();
}

// Every field of a run, end to end.
fn put_fields(run: Run, full: &mut [u8; ALL_BYTES])
    ensures { full.new ≡ joined (bytes_of (fields_of (view run))) }
{
    let setup = run.setup;
    let progress = run.progress;
    let flags = flags_of(progress.lap, progress.ended, setup.fallback);
    let seed = SeedParts::of(run.seed);
    put_first(
        seed.narrow,
        setup.lap_share,
        setup.tick_limit,
        progress.tick,
        full,
    );
    eight::put(&run.credited, &mut full[CREDITED_AT..FLAGS_AT]).unwrap();
    put_last(
        u64::from(flags),
        run.car,
        &run.poses,
        setup.n,
        seed.wide,
        full,
    );
}

// The run's saved form goes to the front of the output; its length, or a cause and the output as it was.
pub fn save(run: Run, out: &mut [u8]) -> Result<u32, Cause>
    ensures { after_save result out.new ≡ save_of most_tiles (view run) out.old }
{
    save_check(run.setup, run.progress, out.len())?;
    let mut full = [0u8; ALL_BYTES];
    put_fields(run, &mut full);
    let rows = saved::rows();
    let fields = Fields {
        rows: &rows,
        full: &full,
    };
    let map = table::map_of(fields);
    let length = pack::pack(fields, map, out).unwrap();
    Ok(length as u32)
}
