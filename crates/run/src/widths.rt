// The widths of a state's bit sets, each named once. The full state is the one whose sets have a bit for each tile of any course, 2,500 at
// most; definitions and most laws are for any number of words, so that a state with narrower sets, for short courses, can stand beside it.
use course::constants::MOST_POINTS;

// Words to a set: credited tiles have one set, the wheels one each.
pub const FULL_WORDS: usize = 40;

// Words of the four wheels' sets, one after the other.
pub const WHEEL_WORDS: usize = 4 * FULL_WORDS;

// The greatest n that the full state takes (document 01, cause 4): that of a course.
pub const MOST_TILES: u32 = MOST_POINTS as u32;
