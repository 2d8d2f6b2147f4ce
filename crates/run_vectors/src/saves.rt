// The records that save a run and restore one, and those that put and show what only a save reads.
use crate::{hash, kind, lent};
use run::state::Run;
use run::{restore, save};
use std::io::Write;
use std::{fmt, io};
use vectors::columns::{Columns, front, front_mut};
use vectors::line;
use vectors::record::Record;

// The length of the output that a save is lent a part of: longer than any saved form.
const OUTPUT: usize = 700;

// What stands in each place of it before a save.
const UNTOUCHED_BYTE: u8 = 165;

// The record's last poses and seed.
pub fn put_last(record: Record<'_>, run: &mut Run) {
    run.poses = record.values(1);
    run.seed = record.word(17);
}

// A hash of the last poses, and the seed.
// Kept as two lines by hand: a part of a run, shown here alone, so a type that prints it would be longer.
pub fn line_last<W: Write>(out: &mut W, run: &Run) -> io::Result<()> {
    line::column(out, &run.poses)?;
    writeln!(out, "{}", run.seed)
}

// Bytes, printed in two hexadecimal digits each.
#[derive(Clone, Copy)]
struct Hex<'a>(&'a [u8]);

impl fmt::Display for Hex<'_> {
    fn fmt<W: fmt::Write>(&self, f: &mut fmt::Formatter<W>) -> fmt::Result {
        for byte in self.0 {
            write!(f, "{byte:02x}")?;
        }
        Ok(())
    }
}

// A save into a part of the output: its length, and as many of the first bytes as are asked for; and a hash of the whole.
pub fn replay_save<W: Write>(out: &mut W, record: Record<'_>, run: Run) -> io::Result<()> {
    let mut form = [UNTOUCHED_BYTE; OUTPUT];
    match save::save(run, front_mut(&mut form, record.word(1))) {
        Ok(length) => writeln!(out, "{length}\n{}", Hex(front(&form, record.word(2))))?,
        Err(cause) => line::refused(out, cause)?,
    }
    line::column(out, &form)
}

// Which course the bytes are of.
// Kept as two lines by hand, shown here alone: a type that prints them would be longer.
fn line_course<W: Write>(out: &mut W, bytes: &[u8]) -> io::Result<()> {
    match restore::saved_course(bytes) {
        Ok(of) => writeln!(out, "{}\n{}", of.seed, of.n),
        Err(cause) => line::refused(out, cause),
    }
}

// Which course the bytes are of, and a restore of them. Where the restore is refused, the run stays.
pub fn replay_restore<W: Write>(
    out: &mut W,
    record: Record<'_>,
    columns: &Columns,
    run: &mut Run,
) -> io::Result<()> {
    let bytes = record.bytes(6, kind::byte_count(record));
    line_course(out, bytes)?;
    let s = restore::restore(bytes, lent::lend(columns, record), record.low(4));
    if s.answer.is_ok() {
        *run = s.run;
    }
    line::answer(out, s.answer.map(|()| "restored"))?;
    line::hash(out, hash::whole(&s.run))
}
