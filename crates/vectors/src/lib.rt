// What the test programs share: a stored list and its records, columns to lend, hashes, and lines of answers.
//
// A program NAME_vectors replays the list crates/NAME_vectors/stdin and prints a line for each answer.
// The expected lines stand in its stdout. Both files are made from the Rust by host/compare/write NAME.
//
// A lent column is a part of a longer one, which holds numbers before the call that no call writes: its hash
// afterwards, of the whole, shows what was written, and that nothing else was.
//
// A float goes by its bits as in a saved form, by form's trait `Eight`: one pattern for every NaN.
//
// What prints a line takes the writer first. Its error, where a write fails, is the answer.
//
// Every function here is proved safe and ending. No public function has a `requires`. What a function promises beyond that is
// what the programs' bounds need, what is read of a list, and what a word of a record stands for: the rest shows in the stored
// answers.
#![tactic(auto)]

ghost use Rattle.std.specs.Prelude.{◌<◌, IfOk, length, take};
ghost use Rattle.std.specs.Io.{ReadsAtMost};
ghost use Rattle.std.specs.Io.KnownBytes.{Consumes, IsAtEnd};

pub mod columns;
pub mod hash;
pub mod line;
pub mod record;

use std::io;
use std::io::Read;

// Reads the next part of a list until the part is full or the input ends, and answers how many bytes came. No read follows a full
// part, so a peer that waits for answers to it is not waited for. Where a read fails, its error is the answer, and nothing is said
// of the part.
// Kept as a loop over a part that is lent: after `read_to_end` of a `take` no contract says where the input stands, nor, where its
// bytes are not known, that no more came than the limit. And with the length beside, which the programs go by: a `Vec` that is cut to what
// came is filled anew for the next part, so that a list of no record took run_vectors six times the instructions.
pub fn read_list<R: Read>(input: &mut R, part: &mut [u8]) -> io::Result<usize>
    ensures bound { ReadsAtMost result part.new }
    ensures bytes { IfOk result (λ n. Consumes (R.remaining input.old) (R.remaining input.new) (take n part.new)) }
    ensures end { IfOk result (λ n. n < length part.new → IsAtEnd (R.remaining input.new)) }
{
    let mut done = 0;
    while done < part.len() {
        let n = input.read(&mut part[done..])?;
        if n == 0 {
            return Ok(done);
        }
        done += n;
    }
    Ok(done)
}

#[cfg(test)]
mod tests {
    use super::*;
    use std::test::Fail;

    // A list comes part after part, each from the front of what is lent.
    #[test]
    fn list_is_read_in_parts(rt: HostRuntime) -> Result<(), Fail> {
        let mut input: &[u8] = &[1, 2, 3];
        let mut part = [0; 2];
        assert_eq!(rt; read_list(&mut input, &mut part)?, 2);
        assert_eq!(rt; part, [1u8, 2]);
        assert_eq!(rt; read_list(&mut input, &mut part)?, 1);
        assert_eq!(rt; part, [3u8, 2]);
        Ok(())
    }
}
