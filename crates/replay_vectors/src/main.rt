// Replays stored logs of whole runs over the crate certificate: a seed's course, a start on it and a list of drives and
// settles, in one call.
//
// The list is ../stdin and the answers are ../stdout. Both are made by `host/compare/write replay`, whose module
// host/compare/lists/replay.rs takes the answers from the Rust and, where the Rust has none, from document 01. A record of
// the list is a whole log, laid out as in read.rt. The list comes in blocks of a fixed length, each replayed before the
// next is read; an unknown code ends a block, as the zeros do that fill one up.
//
// For each record come the answers of lay and start, a line for each call that stands in it, answered or not, and the
// sheet; then a hash of every lent column, whole, so that a number written where none belongs shows.
#![tactic(auto)]

mod line;
mod read;

use certificate::replay;
use certificate::replay::{AnswerColumns, CallColumns, Opening, Replayed};
use line::{Sheet, Started};
use read::Log;
use run::numbers;
use std::alloc::{AllocError, Global};
use std::io;
use std::io::{BufWriter, Write};
use vectors::columns::{Columns, UNTOUCHED, UNTOUCHED_ID, front, front_mut};
use vectors::record::{BLOCK, BLOCKS, Record, Records};

// The columns of calls and answers, longer than a record's.
#[derive(Drop)]
struct Calls {
    call_words: Vec<u32>,
    call_numbers: Vec<f64>,
    answer_words: Vec<u32>,
    answer_numbers: Vec<f64>,
}

impl Calls {
    // Columns with no record's calls: `give` fills them.
    fn new(alloc: Global) -> Result<Self, AllocError> {
        Ok(Calls {
            call_words: vec![in alloc; UNTOUCHED_ID; 3700]?,
            call_numbers: vec![in alloc; UNTOUCHED; 18100]?,
            answer_words: vec![in alloc; UNTOUCHED_ID; 3700]?,
            answer_numbers: vec![in alloc; UNTOUCHED; 10900]?,
        })
    }

    // The record's calls; no other place, and none of the answers, is touched.
    fn give(&mut self, record: Record<'_>) {
        self.call_words.fill(UNTOUCHED_ID);
        self.call_numbers.fill(UNTOUCHED);
        self.answer_words.fill(UNTOUCHED_ID);
        self.answer_numbers.fill(UNTOUCHED);
        read::give_calls(record, &mut self.call_words);
        read::give_numbers(record, &mut self.call_numbers);
    }
}

// The record's call on parts of the columns, of the record's lengths.
fn call(record: Record<'_>, columns: &mut Columns, c: &mut Calls) -> Replayed {
    let opening = Opening {
        share: record.float(9),
        limit: record.low(10),
        poses: numbers::poses_from(&record.values(11)),
    };
    let calls = CallColumns {
        many: record.low(27),
        words: front(&c.call_words, record.word(28)),
        numbers: front(&c.call_numbers, record.word(29)),
    };
    let answers = AnswerColumns {
        words: front_mut(&mut c.answer_words, record.word(30)),
        numbers: front_mut(&mut c.answer_numbers, record.word(31)),
    };
    replay::replay(
        record.word(1),
        columns.lend(record, 2),
        opening,
        calls,
        answers,
    )
}

// The answers in their order, a call's from its words and numbers; and what all columns hold then.
fn replay_log<W: Write>(
    out: &mut W,
    record: Record<'_>,
    columns: &mut Columns,
    c: &mut Calls,
) -> io::Result<()> {
    columns.reset();
    c.give(record);
    let done = call(record, columns, c);
    vectors::line::laid(out, done.laid)?;
    vectors::line::answer(out, done.start.map(Started))?;
    line::answers(out, read::held(record), &c.answer_words, &c.answer_numbers)?;
    vectors::line::answer(out, done.sheet.map(Sheet))?;
    columns.lines(out)?;
    vectors::line::column(out, &c.answer_words)?;
    vectors::line::column(out, &c.answer_numbers)
}

fn main(rt: HostRuntime) -> io::Result<()> {
    let alloc = rt.alloc();
    let mut block = vec![in alloc; 0; BLOCK]?;
    let mut columns = Columns::new(alloc, 30000)?;
    let mut calls = Calls::new(alloc)?;
    let mut out = BufWriter::new(alloc, io::writer(&rt))?;
    for _ in 0..BLOCKS {
        // Kept with the length beside: `read_list` says why.
        let n = vectors::read_list(&mut rt.stdin(), &mut block)?;
        for (_, record) in Records::<Log>::new(&block[..n]) {
            replay_log(&mut out, record, &mut columns, &mut calls)?;
        }
        out.flush()?;
    }
    Ok(())
}
