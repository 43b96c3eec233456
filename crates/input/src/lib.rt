// What a program that answers its whole input does: reading the input to its end, or knowing that it could not be read, and writing
// the answer.
#![tactic(auto)]

ghost use Rattle.std.specs.Prelude.{ℕ, ◌≤◌, length, take, IfOk};
ghost use Rattle.std.specs.Io.KnownBytes.{Consumes};
ghost use Rattle.io.specs.Counts.{IsPrefixLen};
ghost use Rattle.input.specs.Reads.{bytes_read, IsFirst, Answers};

use std::fmt;
use std::io::{Read, Write};

// One byte more than the largest good input: what is longer is seen to be too long.
const INPUT_BYTES: usize = 50178;

// What the longest answer takes.
const ANSWER_BYTES: usize = 12320;

// A read failed: how many bytes were read before it.
#[derive(Clone, Copy, Debug, PartialEq, Eq)]
pub struct CutShort {
    pub read: usize,
}

// Why an answer is not told: the input could not be read, or the answer could not be written.
#[derive(Clone, Copy, Debug, PartialEq, Eq)]
pub enum Untold {
    Unread,
    Unwritten,
}

impl fmt::Display for Untold {
    fn fmt<W: fmt::Write>(&self, f: &mut fmt::Formatter<W>) -> fmt::Result {
        match self {
            Untold::Unread => write!(f, "standard input could not be read."),
            Untold::Unwritten => write!(f, "the answer could not be written."),
        }
    }
}

// Reads until the input ends or the buffer is full, and returns how many bytes were read. What was not read the reader still has.
pub fn read_input<R: Read>(reader: &mut R, buf: &mut [u8]) -> Result<usize, CutShort>
    ensures count { IsPrefixLen (bytes_read result) buf.new }
    ensures bytes { Consumes (R.remaining reader.old) (R.remaining reader.new) (take (bytes_read result) buf.new) }
    ensures first { IfOk result (λ n. IsFirst (R.remaining reader.old) (length buf.new) (take n buf.new)) }
{
    let mut n = 0;
    // `while`: a read says how far it came
    while n < buf.len() {
        match reader.read(&mut buf[n..]) {
            Err(_) => return Err(CutShort { read: n }),
            Ok(0) => break,
            Ok(more) => n += more,
        }
    }
    Ok(n)
}

// Answers what a reader gives by `report`, which fills the start of a memory and returns how far. Where reading fails nothing is
// written, so that a part of the input is never taken for all of it.
pub fn answer_by<R: Read, W: Write, F: FnOnce(&[u8], &mut [u8; 12320]) -> usize>(
    reader: &mut R,
    writer: &mut W,
    report: F,
) -> Result<(), Untold>
    requires callable { F.IsAlwaysCallable report }
    requires fits { (text : _) (out : _) (n : ℕ) (after : _) → F.post report text out n after → n ≤ length after.now }
    ensures { Answers (F.post report) (R.remaining reader.old) (W.contents writer.old) (W.contents writer.new) result }
{
    let mut input = [0u8; INPUT_BYTES];
    let Ok(n) = read_input(reader, &mut input) else {
        return Err(Untold::Unread);
    };
    let mut out = [0u8; ANSWER_BYTES];
    let k = report(&input[..n], &mut out);
    if writer.write_all(&out[..k]).is_err() {
        return Err(Untold::Unwritten);
    }
    Ok(())
}
