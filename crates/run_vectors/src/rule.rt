// The records that answer without a state after them.
// Kept as lines by hand, here and in call.rt, lent.rt: each answer is shown at one place of this program, so a type that prints it would be longer.
use crate::read;
use run::reward::Weights;
use run::state::Run;
use run::{dynamics, quad, reward, sheet};
use std::io;
use std::io::Write;
use vectors::line;
use vectors::line::{Bits, Flag};
use vectors::record::Record;

pub fn replay_sheet<W: Write>(out: &mut W, run: &Run) -> io::Result<()> {
    match sheet::sheet(run.setup, run.progress) {
        Ok(s) => {
            writeln!(out, "{}\n{}\n{}", s.tick, s.credited, s.n)?;
            writeln!(out, "{}\n{}", Flag(s.lap), Flag(s.ended))?;
            writeln!(out, "{}\n{}", Flag(s.fallback), s.share)
        }
        Err(cause) => line::refused(out, cause),
    }
}

pub fn replay_reward<W: Write>(out: &mut W, record: Record<'_>) -> io::Result<()> {
    let weights = Weights {
        tile: record.float(1),
        step: record.float(2),
        off_playfield: record.float(3),
    };
    let value = reward::reward(weights, record.low(4), record.low(5), record.flag(6));
    writeln!(out, "{}", Bits(value))
}

pub fn replay_weights<W: Write>(out: &mut W) -> io::Result<()> {
    let w = Weights::default();
    writeln!(
        out,
        "{}\n{}\n{}",
        Bits(w.tile),
        Bits(w.step),
        Bits(w.off_playfield)
    )
}

pub fn replay_braked<W: Write>(out: &mut W, record: Record<'_>) -> io::Result<()> {
    writeln!(
        out,
        "{}",
        Bits(dynamics::braked(record.float(1), record.float(2)))
    )
}

pub fn replay_overlap<W: Write>(out: &mut W, record: Record<'_>) -> io::Result<()> {
    let overlap = quad::quad_overlap(read::quad(record, 1), read::quad(record, 9));
    writeln!(out, "{}", Flag(overlap))
}

pub fn replay_quad<W: Write>(out: &mut W, record: Record<'_>) -> io::Result<()> {
    for [x, y] in quad::wheel_quad(read::pose(record, 1)) {
        writeln!(out, "{}\n{}", Bits(x), Bits(y))?;
    }
    Ok(())
}

pub fn replay_cells<W: Write>(out: &mut W, record: Record<'_>) -> io::Result<()> {
    for cell in quad::box_cells(read::quad(record, 1)) {
        writeln!(out, "{cell}")?;
    }
    Ok(())
}
