// The records that change the state of the run.
use crate::{hash, lent, read};
use run::dynamics::Force;
use run::settle::Places;
use run::state::Run;
use run::{drive, settle, start};
use std::io;
use std::io::Write;
use vectors::columns::Columns;
use vectors::line;
use vectors::line::{Bits, Flag};
use vectors::record::Record;

// The record's state, with sets, last poses and seed as they were.
pub fn put_core(record: Record<'_>, run: &mut Run) {
    run.setup = read::setup(record);
    run.progress = read::progress(record);
    run.car = read::car(record);
}

// The record's word from its first place on and below its end.
pub fn fill(words: &mut [u64], record: Record<'_>) {
    let end = record.upto(2, words.len());
    let first = record.upto(1, end);
    words[first..end].fill(record.word(3));
}

// How many tiles the start credits, and the lap; or the number of the cause.
pub fn replay_start<W: Write>(
    out: &mut W,
    record: Record<'_>,
    columns: &Columns,
    run: &mut Run,
) -> io::Result<()> {
    let s = start::start(lent::lend(columns, record), read::settings(record));
    match s.answer {
        Ok(v) => writeln!(out, "{}\n{}", v.count, Flag(v.lap))?,
        Err(cause) => line::refused(out, cause)?,
    }
    *run = s.run;
    line::hash(out, hash::state(run))
}

// The forces; where the call is refused the number, and a hash of no forces.
pub fn replay_drive<W: Write>(out: &mut W, record: Record<'_>, run: &mut Run) -> io::Result<()> {
    match drive::drive(run, record.low(1), read::motions(record)) {
        Ok(forces) => {
            for f in forces {
                writeln!(out, "{}\n{}\n{}", Bits(f.motor), Bits(f.fx), Bits(f.fy))?;
            }
        }
        Err(cause) => {
            line::refused(out, cause)?;
            line::hash(out, hash::forces([Force::default(); 4]))?;
        }
    }
    line::hash(out, hash::state(run))
}

pub fn replay_settle<W: Write>(
    out: &mut W,
    record: Record<'_>,
    columns: &Columns,
    run: &mut Run,
) -> io::Result<()> {
    let answer = settle::settle(
        run,
        lent::lend(columns, record),
        Places {
            x: record.float(4),
            y: record.float(5),
            poses: read::poses(record, 6),
        },
    );
    match answer {
        Ok(v) => {
            writeln!(out, "{}\n{}", v.new_tiles, v.n)?;
            writeln!(out, "{}\n{}\n{}", Flag(v.off), Flag(v.lap), Flag(v.ended))?;
        }
        Err(cause) => line::refused(out, cause)?,
    }
    line::hash(out, hash::state(run))
}
