// Signs with a styling string: reading one, its transcription, and writing a styling. A styling is a record of 3472 numbers in one
// array that the caller lends: 7 KB are too much to hand out by value, and the array crosses into C as it is.
#![tactic(auto)]

ghost use Rattle.std.specs.Prelude.{◌≡◌, ◌+◌, ◌≤◌, length};
ghost use Rattle.token.specs.Result.{as_written, written, output};
ghost use Rattle.token.specs.Wrote.{Wrote};
ghost use Rattle.sign.specs.Reading.{as_reading};
ghost use Rattle.styling.specs.Reading.{styled_of, styled_reading, record_left};
ghost use Rattle.styling.specs.Transcription.{styled_transcription};
ghost use Rattle.styling.specs.Writing.{writing};

use charset::Charset;
use grammar::Symbols;
use sign::Sign;
use stylinggrammar::layout::{DRAFT, LONGEST, RECORD};
use token::refusal::Refusal;
use writer::tokens::put_bytes;

pub mod records;
pub mod text;

// Reads a sign with its styling: refused as 1 or 2, then 17, 18, 19, 3, 4.
pub fn read_styled(set: Charset, s: &[u8], styling: &mut [u16; RECORD]) -> Result<Sign, Refusal>
    ensures answer { as_reading result ≡ styled_reading set s.now }
    ensures memory { styling.new ≡ record_left styling.old (styled_of set s.now) }
{
    let mut symbols = Symbols::none();
    let mut draft = [0u16; DRAFT];
    let (head, at) = text::styled_into(set, s, &mut symbols, &mut draft)?;
    text::fill(&s[at..], &draft, styling);
    Ok(sign::packing::packed(set, head, &symbols))
}

// Bytes at an offset, as writer `put_bytes` puts them. A loop, since `copy_from_slice` between two lent memories calls memmove, which an
// archive for C would then need from outside.
fn put_rest(out: &mut [u8], at: usize, s: &[u8]) -> usize
    requires { at + length s.now ≤ length out.old }
    ensures { Wrote out.old out.new at result s.now }
{
    for i in 0..s.len() {
        out[at + i] = s[i];
    }
    at + s.len()
}

// Writes a sign in the other character set, and its styling as it is, and returns the text's length: refused as reading refuses,
// then as 6.
pub fn transcribe_styled(set: Charset, s: &[u8], out: &mut [u8]) -> Result<usize, Refusal>
    ensures answer { as_written result ≡ written out.old (styled_transcription set s.now) }
    ensures memory { out.new ≡ output out.old (styled_transcription set s.now) }
{
    let mut symbols = Symbols::none();
    let (head, at) = text::styled_into(set, s, &mut symbols, &mut [])?;
    let other = sign::sets::other_set(set);
    let from = writer::arrays::sign_size(other, head.prefix_count, head.symbol_count);
    let size = from + (s.len() - at);
    if out.len() < size {
        return Err(Refusal::RoomShort(size));
    }
    writer::arrays::write_sign(other, head, &symbols, out)?;
    put_rest(out, from, &s[at..]);
    Ok(size)
}

// Writes the shortest styling string of a record, and returns its length: refused as 1 at 0 where no styling reads as the record,
// then as 6. The text is made first and read again, so that the record is judged by the reader itself.
pub fn write_styling(styling: &[u16; RECORD], out: &mut [u8]) -> Result<usize, Refusal>
    ensures answer { as_written result ≡ written out.old (writing styling.now) }
    ensures memory { out.new ≡ output out.old (writing styling.now) }
{
    let mut text = [0u8; LONGEST];
    let size = stylingwriter::writing::put_styling(styling, &mut text);
    if !records::reads_as(&text[..size], styling) {
        return Err(Refusal::TextWrong(0));
    }
    if out.len() < size {
        return Err(Refusal::RoomShort(size));
    }
    put_bytes(out, 0, &text[..size]);
    Ok(size)
}
