// Signs: reading in either character set, and transcription into the other.
#![tactic(auto)]

ghost use Rattle.std.specs.Prelude.{◌≡◌};
ghost use Rattle.token.specs.Result.{as_written, written, output};
ghost use Rattle.sign.specs.Reading.{as_reading, reading_in};
ghost use Rattle.sign.specs.Transcription.{transcription};

use charset::Charset;
use grammar::Symbols;
use token::refusal::Refusal;

pub mod copying;
pub mod offsets;
pub mod packing;
pub mod sets;

// A sign as read. The marker is 1 to 4 for B, L, M, R, and the maximum is as stated. The offsets are those of the bytes where
// the symbols' keys begin in the text, in SWU their characters. Places after the counts hold 0. The laws of specs/ name each field,
// so that it holds no Head and Symbols.
#[derive(Clone, Copy)]
pub struct Sign {
    pub marker: u16,
    pub max_x: u16,
    pub max_y: u16,
    pub prefix_count: usize,
    pub symbol_count: usize,
    pub prefix: [u16; 32],
    pub codes: [u16; 64],
    pub xs: [u16; 64],
    pub ys: [u16; 64],
    pub prefix_offsets: [u16; 32],
    pub symbol_offsets: [u16; 64],
}

// Reads a sign: refused as 1 or 2, then 3, then 4.
#[tactic(auto, using(crate::proofs::Readings::reading_refused, token::proofs::Handed::handed))]
pub fn read(set: Charset, text: &[u8]) -> Result<Sign, Refusal>
    ensures { as_reading result ≡ reading_in set text.now }
{
    let mut symbols = Symbols::none();
    let head = reader::arrays::read_into(set, text, &mut symbols)?;
    Ok(packing::packed(set, head, &symbols))
}

// Writes a sign in the other character set, and returns the text's length: refused as 1 to 4 by the reader, then as 6.
pub fn transcribe(set: Charset, text: &[u8], out: &mut [u8]) -> Result<usize, Refusal>
    ensures answer { as_written result ≡ written out.old (transcription set text.now) }
    ensures memory { out.new ≡ output out.old (transcription set text.now) }
{
    let mut symbols = Symbols::none();
    let read = reader::arrays::read_into(set, text, &mut symbols)?;
    writer::arrays::write_sign(sets::other_set(set), read, &symbols, out)
}
