// The kinds of record, by their codes.
ghost use Rattle.std.specs.Prelude.{◌≤◌};
ghost use Rattle.course.specs.Rules.Lengths.{most_points};

use course::constants::MOST_POINTS;
use vectors::record::{Kind, Record, UnknownCode};

// The most bytes of a Restore.
const MOST_BYTES: usize = 4096;

#[derive(Clone, Copy, Debug, PartialEq, Eq)]
pub enum Request {
    // number of points, and each point's beta, x and y
    Course,
    // place, number: into the tiles
    Tile,
    // place, number: into the offsets
    Offset,
    // place, number: into the index list
    Id,
    // the state but for its sets, last poses and seed, in the order that read::setup says
    Core,
    // first place, end, word: into the credited words
    Credited,
    // the same into the wheels'
    Wheels,
    // the lengths of tiles, offsets and index list; n, fallback, seed, lap share, tick limit, poses
    Start,
    // action, motions
    Drive,
    // the lengths of tiles, offsets and index list; hull x, y, poses
    Settle,
    Sheet,
    // the weights, new tiles, n, off
    Reward,
    // two quads
    Overlap,
    // brake, omega
    Braked,
    // a pose
    Quad,
    // a quad, for the cells of its box
    Cells,
    // the default weights
    Weights,
    // the last poses' sixteen numbers, the seed
    PutLast,
    // shows them
    Last,
    // the length of the output, and how many of its bytes are shown
    Save,
    // the lengths of tiles, offsets and index list; n, how many bytes, and the bytes, with zeros up to a whole word
    Restore,
}

impl TryFrom<u64> for Request {
    type Error = UnknownCode;

    fn try_from(code: u64) -> Result<Self, UnknownCode> {
        match code {
            1 => Ok(Request::Course),
            2 => Ok(Request::Tile),
            3 => Ok(Request::Offset),
            4 => Ok(Request::Id),
            5 => Ok(Request::Core),
            6 => Ok(Request::Credited),
            7 => Ok(Request::Wheels),
            8 => Ok(Request::Start),
            9 => Ok(Request::Drive),
            10 => Ok(Request::Settle),
            11 => Ok(Request::Sheet),
            12 => Ok(Request::Reward),
            13 => Ok(Request::Overlap),
            14 => Ok(Request::Braked),
            15 => Ok(Request::Quad),
            16 => Ok(Request::Cells),
            17 => Ok(Request::Weights),
            18 => Ok(Request::PutLast),
            19 => Ok(Request::Last),
            20 => Ok(Request::Save),
            21 => Ok(Request::Restore),
            _ => Err(UnknownCode(code)),
        }
    }
}

impl Kind for Request {
    fn arguments(self, record: Record<'_>) -> usize {
        match self {
            Request::Course => 1 + 3 * count(record),
            Request::Tile | Request::Offset | Request::Id => 2,
            Request::Core => 27,
            Request::Credited | Request::Wheels => 3,
            Request::Start => 24,
            Request::Drive | Request::Settle => 21,
            Request::Sheet | Request::Weights | Request::Last => 0,
            Request::Reward => 6,
            Request::Overlap => 16,
            Request::Braked | Request::Save => 2,
            Request::Quad => 4,
            Request::Cells => 8,
            Request::PutLast => 17,
            Request::Restore => 5 + byte_count(record).div_ceil(8),
        }
    }
}

// How many points a Course has.
pub fn count(record: Record<'_>) -> usize
    ensures { result ≤ most_points }
{
    record.upto(1, MOST_POINTS)
}

// How many bytes a Restore has.
pub fn byte_count(record: Record<'_>) -> usize
    ensures { result ≤ MOST_BYTES }
{
    record.upto(5, MOST_BYTES)
}
