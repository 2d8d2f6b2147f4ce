// Replays a stored list over the crate course: the course of a seed, of a seed with so many attempts, and of one attempt
// with given checkpoints.
//
// The list is ../stdin and the answers are ../stdout. Both are made by `host/compare/write lay`, whose module
// host/compare/lists/lay.rs takes the courses from the Rust and, where the Rust has none, the answers from document 01. A
// record of the list is a code, the lengths of the seven lent columns, and the call's own arguments, a word each. An
// unknown code ends the run. Of a longer list the first block is read.
#![tactic(auto)]

use course::checkpoints::Checkpoint;
use course::lay;
use course::points::{LaidCourse, LayError};
use std::io;
use std::io::{BufWriter, Write};
use vectors::columns::Columns;
use vectors::line;
use vectors::record::{BLOCK, Kind, Record, Records, UnknownCode};

#[derive(Clone, Copy, Debug, PartialEq, Eq)]
enum Request {
    // seed
    Lay,
    // attempts, seed
    Attempts,
    // each checkpoint's angle, x and y
    Checkpoints,
}

impl TryFrom<u64> for Request {
    type Error = UnknownCode;

    fn try_from(code: u64) -> Result<Self, UnknownCode> {
        match code {
            1 => Ok(Request::Lay),
            2 => Ok(Request::Attempts),
            3 => Ok(Request::Checkpoints),
            _ => Err(UnknownCode(code)),
        }
    }
}

impl Kind for Request {
    fn arguments(self, _record: Record<'_>) -> usize {
        match self {
            Request::Lay => 8,
            Request::Attempts => 9,
            Request::Checkpoints => 43,
        }
    }
}

// The record's checkpoints.
fn checkpoints(record: Record<'_>) -> [Checkpoint; 12] {
    let mut cs = [Checkpoint::default(); 12];
    for (c, at) in cs.iter_mut().zip((8..44).step_by(3)) {
        let [angle, x, y]: [f64; 3] = record.values(at);
        *c = Checkpoint { angle, x, y };
    }
    cs
}

// The record's call on parts of the columns, of the record's lengths.
fn call(
    request: Request,
    record: Record<'_>,
    columns: &mut Columns,
) -> Result<LaidCourse, LayError> {
    let cols = columns.lend(record, 1);
    match request {
        Request::Lay => lay::lay(record.word(8), cols),
        Request::Attempts => lay::lay_attempts(record.low(8), record.word(9), cols),
        Request::Checkpoints => lay::lay_checkpoints(checkpoints(record), cols),
    }
}

fn main(rt: HostRuntime) -> io::Result<()> {
    let mut list = vec![in rt.alloc(); 0; BLOCK]?;
    let mut columns = Columns::new(rt.alloc(), 30000)?;
    let mut out = BufWriter::new(rt.alloc(), io::writer(&rt))?;
    // Kept with the length beside: `read_list` says why.
    let n = vectors::read_list(&mut rt.stdin(), &mut list)?;
    for (request, record) in Records::new(&list[..n]) {
        columns.reset();
        line::laid(&mut out, call(request, record, &mut columns))?;
        columns.lines(&mut out)?;
    }
    out.flush()
}
