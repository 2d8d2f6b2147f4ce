// The lines of answers.
use certificate::replay::{ANSWER_NUMBERS, ANSWER_WORDS};
use run::sheet::RunSheet;
use run::start::StartValues;
use std::io::Write;
use std::{fmt, io};
use vectors::line::{Bits, Flag};

// How many tiles a start credits, and the lap.
#[derive(Clone, Copy)]
pub struct Started(pub StartValues);

impl fmt::Display for Started {
    fn fmt<W: fmt::Write>(&self, f: &mut fmt::Formatter<W>) -> fmt::Result {
        write!(f, "started {} {}", self.0.count, Flag(self.0.lap))
    }
}

// Tick, credited, n, lap, ended, fallback, share.
#[derive(Clone, Copy)]
pub struct Sheet(pub RunSheet);

impl fmt::Display for Sheet {
    fn fmt<W: fmt::Write>(&self, f: &mut fmt::Formatter<W>) -> fmt::Result {
        let s = self.0;
        let [lap, ended, fallback] = [s.lap, s.ended, s.fallback].map(Flag);
        write!(f, "sheet {} {} {} ", s.tick, s.credited, s.n)?;
        write!(f, "{lap} {ended} {fallback} {}", s.share)
    }
}

// The forces: motor speed, fx and fy of each wheel.
fn forces<W: Write>(out: &mut W, numbers: &[f64; ANSWER_NUMBERS]) -> io::Result<()> {
    write!(out, "forces")?;
    for x in numbers {
        write!(out, " {}", Bits(*x))?;
    }
    writeln!(out)
}

// New tiles, n, off, lap, ended: the flags as bits of a word.
fn settled<W: Write>(out: &mut W, fresh: u32, n: u32, flags: u32) -> io::Result<()> {
    let [off, lap, ended] = [flags % 2, flags / 2 % 2, flags / 4];
    writeln!(out, "settled {fresh} {n} {off} {lap} {ended}")
}

// The answer that four words and twelve numbers hold, by the first word: forces, a settle or a refusal. A call that was not
// answered left its words untouched.
// Kept as numbers for kinds: the C interface lends a column of words, which this shows as it stands.
fn answer<W: Write>(
    out: &mut W,
    words: &[u32; ANSWER_WORDS],
    numbers: &[f64; ANSWER_NUMBERS],
) -> io::Result<()> {
    match *words {
        [0, ..] => forces(out, numbers),
        [1, fresh, n, flags] => settled(out, fresh, n, flags),
        [2, cause, ..] => writeln!(out, "refused {cause}"),
        _ => writeln!(out, "untouched"),
    }
}

// The answers of so many calls.
pub fn answers<W: Write>(
    out: &mut W,
    count: usize,
    words: &[u32],
    numbers: &[f64],
) -> io::Result<()> {
    let (words, _) = words.as_chunks::<ANSWER_WORDS>();
    let (numbers, _) = numbers.as_chunks::<ANSWER_NUMBERS>();
    for (words, numbers) in words.iter().zip(numbers).take(count) {
        answer(out, words, numbers)?;
    }
    Ok(())
}
