// The lent course, which stands from record to record, and the records that change it: another course, or one number of
// it, damaged.
use crate::kind;
use course::constants::MOST_POINTS;
use course::points;
use course::points::{LaidCourse, LayError};
use run::touch;
use std::io;
use std::io::Write;
use vectors::columns::{Columns, front};
use vectors::line;
use vectors::record::Record;

// One number of each of the record's points, from word k on.
fn given_column(record: Record<'_>, k: usize) -> [f64; MOST_POINTS] {
    let mut col = [0.0; MOST_POINTS];
    record.fill_points(k, kind::count(record), &mut col);
    col
}

// As much of the columns that a run is lent as the record's words 1 to 3 say.
pub fn lend<'a>(columns: &'a Columns, record: Record<'_>) -> touch::Columns<'a> {
    touch::Columns {
        tiles: front(&columns.tiles, record.word(1)),
        offsets: front(&columns.offsets, record.word(2)),
        list: front(&columns.list, record.word(3)),
    }
}

fn put_course(record: Record<'_>, columns: &mut Columns) -> Result<LaidCourse, LayError> {
    points::points(
        &given_column(record, 2),
        &given_column(record, 3),
        &given_column(record, 4),
        record.low(1),
        columns.whole(),
    )
}

// A course: the tile count and the index list's length, or the number of the cause; and what a run's columns hold then.
pub fn replay_course<W: Write>(
    out: &mut W,
    record: Record<'_>,
    columns: &mut Columns,
) -> io::Result<()> {
    match put_course(record, columns) {
        Ok(c) => writeln!(out, "{}\n{}", c.n, c.entries)?,
        Err(error) => line::not_laid(out, error)?,
    }
    line::column(out, &columns.tiles)?;
    line::column(out, &columns.offsets)?;
    line::column(out, &columns.list)
}
