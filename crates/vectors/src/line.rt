// Lines of answers.
use crate::hash::Hashed;
use course::cause::{Cause, Numbered};
use course::points::{LaidCourse, LayError};
use form::eight::Eight;
use std::io::Write;
use std::{fmt, io};

// A float, printed by its bits in 16 hexadecimal digits.
#[derive(Clone, Copy)]
pub struct Bits(pub f64);

impl fmt::Display for Bits {
    fn fmt<W: fmt::Write>(&self, f: &mut fmt::Formatter<W>) -> fmt::Result {
        write!(f, "{:016x}", self.0.number_of())
    }
}

// A flag, printed as 1 or 0.
#[derive(Clone, Copy)]
pub struct Flag(pub bool);

impl fmt::Display for Flag {
    fn fmt<W: fmt::Write>(&self, f: &mut fmt::Formatter<W>) -> fmt::Result {
        write!(f, "{}", u8::from(self.0))
    }
}

// By which cause a call was refused.
pub fn refused<W: Write, E: Numbered>(out: &mut W, error: E) -> io::Result<()> {
    writeln!(out, "refused {}", error.number())
}

// What a call answers, on one line, or by which cause it was refused.
pub fn answer<W: Write, T: Copy + fmt::Display>(
    out: &mut W,
    answer: Result<T, Cause>,
) -> io::Result<()> {
    match answer {
        Ok(value) => writeln!(out, "{value}"),
        Err(cause) => refused(out, cause),
    }
}

// By which cause lay or points was refused; at cause 3 with the list length needed.
pub fn not_laid<W: Write>(out: &mut W, error: LayError) -> io::Result<()> {
    refused(out, error)?;
    match error {
        LayError::Short(_) => writeln!(out, "{}", error.entries()),
        LayError::Refused(_) => Ok(()),
    }
}

// The hash of a column.
pub fn column<T: Hashed, W: Write>(out: &mut W, col: &[T]) -> io::Result<()> {
    hash(out, crate::hash::column(col))
}

// A hash.
pub fn hash<W: Write>(out: &mut W, h: u64) -> io::Result<()> {
    writeln!(out, "{h:016x}")
}

// What lay and points answer: n, fallback, list length and the first point; at cause 3 the length needed.
// Kept as lines by hand, said here once: a type of this crate around the course's answer, to print it, would be longer.
pub fn laid<W: Write>(out: &mut W, answer: Result<LaidCourse, LayError>) -> io::Result<()> {
    match answer {
        Ok(c) => {
            writeln!(out, "{}", c.n)?;
            writeln!(out, "{}", Flag(c.fallback))?;
            writeln!(out, "{}", c.entries)?;
            writeln!(out, "{}", Bits(c.first.beta))?;
            writeln!(out, "{}", Bits(c.first.x))?;
            writeln!(out, "{}", Bits(c.first.y))
        }
        Err(error) => not_laid(out, error),
    }
}
