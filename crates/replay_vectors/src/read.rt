// A record of the list, a word each: the code 1, seed, the lengths of the seven lent columns of a course, lap share, tick
// limit, the four poses, how many calls are asked for, the lengths of the lent calls, given numbers, answered words and
// answered numbers, how many calls stand in the record; then the words of these, four to a call, and their numbers, twenty
// to a call.
ghost use Rattle.std.specs.Prelude.{◌≤◌};

use certificate::replay::{CALL_NUMBERS, CALL_WORDS};
use vectors::columns::front_mut;
use vectors::record::{Kind, Record, UnknownCode};

// Words of a record before its calls.
const FRONT: usize = 33;

// The most calls of a record.
const MOST_CALLS: usize = 900;

// A whole log, the one kind of record.
#[derive(Clone, Copy, Debug, PartialEq, Eq)]
pub struct Log;

impl TryFrom<u64> for Log {
    type Error = UnknownCode;

    fn try_from(code: u64) -> Result<Self, UnknownCode> {
        match code {
            1 => Ok(Log),
            _ => Err(UnknownCode(code)),
        }
    }
}

impl Kind for Log {
    fn arguments(self, record: Record<'_>) -> usize {
        FRONT - 1 + held(record) * (CALL_WORDS + CALL_NUMBERS)
    }
}

// How many calls stand in the record.
pub fn held(record: Record<'_>) -> usize
    ensures { result ≤ MOST_CALLS }
{
    record.upto(32, MOST_CALLS)
}

// The words of the record's calls, into the front of the column.
pub fn give_calls(record: Record<'_>, col: &mut [u32]) {
    let words = held(record) * CALL_WORDS;
    record.fill(FRONT, front_mut(col, words as u64));
}

// The numbers of the record's calls, into the front of the column.
pub fn give_numbers(record: Record<'_>, col: &mut [f64]) {
    let words = held(record) * CALL_WORDS;
    let numbers = held(record) * CALL_NUMBERS;
    record.fill(FRONT + words, front_mut(col, numbers as u64));
}
