// The constants of the reference's track.rs, as its expressions, and the lengths of lent columns.
ghost use Rattle.std.specs.Prelude.{◌≡◌, ◌≤◌};
ghost use Rattle.course.specs.Rules.Lengths.{most_points, column_length};

// H of document 01, and the Rust's `tau`.
pub use std::f64::consts::{FRAC_PI_2 as HALF_PI, PI, TAU};

pub const SCALE: f64 = 6.0;

pub const TRACK_RAD: f64 = 900.0 / SCALE;

pub const PLAYFIELD: f64 = 2000.0 / SCALE;

pub const FPS: f64 = 50.0;

pub const TRACK_DETAIL_STEP: f64 = 21.0 / SCALE;

pub const TRACK_TURN_RATE: f64 = 0.31;

pub const TRACK_WIDTH: f64 = 40.0 / SCALE;

pub const BORDER: f64 = 8.0 / SCALE;

pub const GRID_CELL: f64 = 10.0;

// The radius of the first and the last checkpoint, where the walk starts.
pub const FAR_RAD: f64 = 1.5 * TRACK_RAD;

pub const MAX_ATTEMPTS: u32 = 64;

// Where `least` and `greatest` begin, as the Rust's folds do.
pub const MAX: f64 = f64::MAX;

pub const MIN: f64 = f64::MIN;

// The grid's cells in a row, its rows, and all its cells.
pub const GRID_DIM: usize = 67;

pub const CELL_COUNT: usize = GRID_DIM * GRID_DIM;

// The most steps of a walk.
pub const STEP_LIMIT: usize = 2500;

// The most points of a course (document 01, cause 9).
pub const MOST_POINTS: usize = 2500;

// The lengths of lent columns (document 01, "Lay": Lent): of alpha, beta, x and y where lay is lent them, and of offsets.
// Tiles and curb quads have eight numbers to an entry of these.
pub const LAID_LENGTH: usize = 2500;

pub const OFFSET_COUNT: usize = CELL_COUNT + 1;

// The length of the columns that are lent with a course of n points, and of white marks.
// Kept with n, though it gives one length for every n: document 01 states the lengths of lent columns once, and document 02's order 8 lets longer
// courses have longer columns. What is then changed is this function, and none of its callers.
pub fn column_length(n: usize) -> usize
    ensures value { result ≡ column_length n }
    ensures upper_bound { result ≤ most_points }
{
    LAID_LENGTH
}
