// Replays a stored list over the crate course: the stand-ins for sine, cosine and atan2, the square
// root, the cell of a coordinate, and Rust's methods on f64.
//
// The list is ../stdin and the answers, a line each, are ../stdout. Both are made by
// `host/compare/write number`, whose module host/compare/lists/number.rs takes the answers from the Rust: the
// oracle's stand-ins and `cell_of`, and Rust's own f64. A record of the list is its operation's code and
// the bits of its arguments, a word each. An unknown code ends the run. Of a longer list the
// first block is read.
#![tactic(auto)]

use course::{cell, numeric, root, trig};
use std::io;
use std::io::{BufWriter, Write};
use vectors::line;
use vectors::line::{Bits, Flag};
use vectors::record::{BLOCK, Kind, Record, Records, UnknownCode};

#[derive(Clone, Copy, Debug, PartialEq, Eq)]
enum Operation {
    Sine,
    Cosine,
    Atan2,
    Sqrt,
    Cell,
    Abs,
    Min,
    Max,
    Clamp,
    Signum,
    Inside,
}

impl TryFrom<u64> for Operation {
    type Error = UnknownCode;

    fn try_from(code: u64) -> Result<Self, UnknownCode> {
        match code {
            1 => Ok(Operation::Sine),
            2 => Ok(Operation::Cosine),
            3 => Ok(Operation::Atan2),
            4 => Ok(Operation::Sqrt),
            5 => Ok(Operation::Cell),
            6 => Ok(Operation::Abs),
            7 => Ok(Operation::Min),
            8 => Ok(Operation::Max),
            9 => Ok(Operation::Clamp),
            10 => Ok(Operation::Signum),
            11 => Ok(Operation::Inside),
            _ => Err(UnknownCode(code)),
        }
    }
}

impl Kind for Operation {
    fn arguments(self, _record: Record<'_>) -> usize {
        match self {
            Operation::Atan2 | Operation::Min | Operation::Max | Operation::Inside => 2,
            Operation::Clamp => 3,
            _ => 1,
        }
    }
}

// The answer of one record. Kept as a switch of printed lines: the answers are of four types. An operation leaves out the arguments that it does not take.
fn line_answer<W: Write>(out: &mut W, operation: Operation, record: Record<'_>) -> io::Result<()> {
    let a = record.float(1);
    let b = record.float(2);
    let c = record.float(3);
    match operation {
        Operation::Sine => line::answer(out, trig::sine(a).map(Bits)),
        Operation::Cosine => line::answer(out, trig::cosine(a).map(Bits)),
        Operation::Atan2 => line::answer(out, trig::atan2(a, b).map(Bits)),
        Operation::Sqrt => writeln!(out, "{}", Bits(root::sqrt(a))),
        Operation::Cell => writeln!(out, "{}", cell::cell_of(a)),
        Operation::Abs => writeln!(out, "{}", Bits(numeric::abs(a))),
        Operation::Min => writeln!(out, "{}", Bits(numeric::min(a, b))),
        Operation::Max => writeln!(out, "{}", Bits(numeric::max(a, b))),
        Operation::Clamp => writeln!(out, "{}", Bits(numeric::clamp(a, b, c))),
        Operation::Signum => writeln!(out, "{}", Bits(numeric::signum(a))),
        Operation::Inside => writeln!(out, "{}", Flag(numeric::inside(a, b))),
    }
}

fn main(rt: HostRuntime) -> io::Result<()> {
    let mut list = vec![in rt.alloc(); 0; BLOCK]?;
    let mut out = BufWriter::new(rt.alloc(), io::writer(&rt))?;
    // Kept with the length beside: `read_list` says why.
    let n = vectors::read_list(&mut rt.stdin(), &mut list)?;
    for (operation, record) in Records::new(&list[..n]) {
        line_answer(&mut out, operation, record)?;
    }
    out.flush()
}
