// Replays a stored list over the crate course: a course from given points, its curbs, and the look-up in its
// index.
//
// The list is ../stdin and the answers are ../stdout. Both are made by `host/compare/write course`, whose module
// host/compare/lists/course.rs takes the answers from the Rust and, where the Rust has none, from document 01. A record
// of the list is a code and its arguments, a word each. An unknown code ends the run. The given columns and the
// last index stand from record to record.
#![tactic(auto)]

mod given;

use course::cause::Cause;
use course::points::{LaidCourse, LayError};
use course::{curbs, index, points};
use given::Given;
use std::io;
use std::io::{BufWriter, Write};
use vectors::columns::{Columns, UNTOUCHED, UNTOUCHED_MARK, front, front_mut, put};
use vectors::line;
use vectors::record::{Kind, Record, Records, UnknownCode};

// How much is read of a list, in bytes.
const LIST: usize = 524288;

#[derive(Clone, Copy, Debug, PartialEq, Eq)]
enum Request {
    // first place, number of points, and each point's beta, x and y: into the given columns
    Give,
    // period, count: the given columns up to the count repeat what stands a period before
    Repeat,
    // count, the lengths of the three given columns, and of the seven lent ones
    Points,
    // count, the lengths of the three given columns, and of the two lent ones
    Curbs,
    // place, number: into the offsets
    Offset,
    // the lengths of offsets and index list, x, y
    Lookup,
}

impl TryFrom<u64> for Request {
    type Error = UnknownCode;

    fn try_from(code: u64) -> Result<Self, UnknownCode> {
        match code {
            1 => Ok(Request::Give),
            2 => Ok(Request::Repeat),
            3 => Ok(Request::Points),
            4 => Ok(Request::Curbs),
            5 => Ok(Request::Offset),
            6 => Ok(Request::Lookup),
            _ => Err(UnknownCode(code)),
        }
    }
}

impl Kind for Request {
    fn arguments(self, record: Record<'_>) -> usize {
        match self {
            Request::Give => 2 + 3 * given::count(record),
            Request::Repeat | Request::Offset => 2,
            Request::Points => 11,
            Request::Curbs => 6,
            Request::Lookup => 4,
        }
    }
}

// Points on parts of the columns, of the record's lengths.
fn call_points(
    record: Record<'_>,
    given: &Given,
    columns: &mut Columns,
) -> Result<LaidCourse, LayError> {
    let [beta, x, y] = given.lend(record);
    points::points(beta, x, y, record.low(1), columns.lend(record, 5))
}

// The answer, and what the lent columns hold then.
fn replay_points<W: Write>(
    out: &mut W,
    record: Record<'_>,
    given: &Given,
    columns: &mut Columns,
) -> io::Result<()> {
    columns.reset();
    line::laid(out, call_points(record, given, columns))?;
    columns.lines(out)
}

// Curbs on parts of the columns, of the record's lengths.
fn call_curbs(
    record: Record<'_>,
    given: &Given,
    quads: &mut [f64],
    white: &mut [u8],
) -> Result<u32, Cause> {
    let [beta, x, y] = given.lend(record);
    let quads = front_mut(quads, record.word(5));
    let white = front_mut(white, record.word(6));
    curbs::curbs(beta, x, y, record.low(1), quads, white)
}

// The answer, and what the lent columns hold then.
fn replay_curbs<W: Write>(
    out: &mut W,
    record: Record<'_>,
    given: &Given,
    quads: &mut [f64],
    white: &mut [u8],
) -> io::Result<()> {
    quads.fill(UNTOUCHED);
    white.fill(UNTOUCHED_MARK);
    line::answer(out, call_curbs(record, given, quads, white))?;
    line::column(out, quads)?;
    line::column(out, white)
}

// The part's length, and its hash.
fn replay_lookup<W: Write>(out: &mut W, record: Record<'_>, columns: &Columns) -> io::Result<()> {
    let offsets = front(&columns.offsets, record.word(1));
    let list = front(&columns.list, record.word(2));
    let part = index::candidate_tiles(offsets, list, record.float(3), record.float(4));
    writeln!(out, "{}", part.len())?;
    line::column(out, part)
}

fn main(rt: HostRuntime) -> io::Result<()> {
    let alloc = rt.alloc();
    let mut list = vec![in alloc; 0; LIST]?;
    let mut given = Given::new(alloc)?;
    let mut columns = Columns::new(alloc, 450000)?;
    let mut quads = vec![in alloc; UNTOUCHED; 20100]?;
    let mut white = vec![in alloc; UNTOUCHED_MARK; 2600]?;
    let mut out = BufWriter::new(alloc, io::writer(&rt))?;
    // Kept with the length beside: `read_list` says why.
    let n = vectors::read_list(&mut rt.stdin(), &mut list)?;
    for (request, record) in Records::new(&list[..n]) {
        match request {
            Request::Give => given.give(record),
            Request::Repeat => given.repeat(record),
            Request::Points => replay_points(&mut out, record, &given, &mut columns)?,
            Request::Curbs => replay_curbs(&mut out, record, &given, &mut quads, &mut white)?,
            Request::Offset => put(&mut columns.offsets, record.word(1), record.low(2)),
            Request::Lookup => replay_lookup(&mut out, record, &columns)?,
        }
    }
    out.flush()
}
