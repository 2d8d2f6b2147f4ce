// Replays a stored list over the crate run: start, drive, settle, sheet, reward, save and restore on courses from given
// points, and the rules for quads and brakes alone.
//
// The list is ../stdin and the answers are ../stdout. Both are made by `host/compare/write run`, whose module
// host/compare/lists/run.rs takes the answers from the Rust and, where the Rust has none, from documents 01 and 02. A record
// of the list is a code and its arguments, a word each. The list comes in blocks of a fixed length, each
// replayed before the next is read; an unknown code ends a block, as the zeros do that fill one up. The course's tiles,
// offsets and index list, and the state of the run, stand from record to record.
//
// After each start, drive and settle, refused or not, comes a hash of the state but for its last poses and seed; after a
// restore one of the whole state that it answers.
#![tactic(auto)]

mod call;
mod hash;
mod kind;
mod lent;
mod read;
mod rule;
mod saves;

use kind::Request;
use run::state::Run;
use std::io;
use std::io::{BufWriter, Write};
use vectors::columns::{Columns, put};
use vectors::record::{BLOCK, BLOCKS, Record, Records};

// What the record does.
// Kept as two parameters, the columns and the run: a settle lends the ones while it changes the other, so a struct of both would be
// taken apart by each call.
fn replay<W: Write>(
    out: &mut W,
    request: Request,
    record: Record<'_>,
    columns: &mut Columns,
    run: &mut Run,
) -> io::Result<()> {
    match request {
        Request::Course => lent::replay_course(out, record, columns)?,
        Request::Tile => put(&mut columns.tiles, record.word(1), record.float(2)),
        Request::Offset => put(&mut columns.offsets, record.word(1), record.low(2)),
        Request::Id => put(&mut columns.list, record.word(1), record.low(2)),
        Request::Core => call::put_core(record, run),
        Request::Credited => call::fill(&mut run.credited, record),
        Request::Wheels => call::fill(&mut run.wheels, record),
        Request::Start => call::replay_start(out, record, columns, run)?,
        Request::Drive => call::replay_drive(out, record, run)?,
        Request::Settle => call::replay_settle(out, record, columns, run)?,
        Request::Sheet => rule::replay_sheet(out, run)?,
        Request::Reward => rule::replay_reward(out, record)?,
        Request::Overlap => rule::replay_overlap(out, record)?,
        Request::Braked => rule::replay_braked(out, record)?,
        Request::Quad => rule::replay_quad(out, record)?,
        Request::Cells => rule::replay_cells(out, record)?,
        Request::Weights => rule::replay_weights(out)?,
        Request::PutLast => saves::put_last(record, run),
        Request::Last => saves::line_last(out, run)?,
        Request::Save => saves::replay_save(out, record, *run)?,
        Request::Restore => saves::replay_restore(out, record, columns, run)?,
    }
    Ok(())
}

fn main(rt: HostRuntime) -> io::Result<()> {
    let mut block = vec![in rt.alloc(); 0; BLOCK]?;
    let mut columns = Columns::new(rt.alloc(), 60000)?;
    let mut run = Run::default();
    let mut out = BufWriter::new(rt.alloc(), io::writer(&rt))?;
    for _ in 0..BLOCKS {
        // Kept with the length beside: `read_list` says why.
        let n = vectors::read_list(&mut rt.stdin(), &mut block)?;
        for (request, record) in Records::new(&block[..n]) {
            replay(&mut out, request, record, &mut columns, &mut run)?;
        }
        out.flush()?;
    }
    Ok(())
}
