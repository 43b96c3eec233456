// Symbol keys, symbol codes and SWU characters, each turned into the other.
#![tactic(auto)]

ghost use Rattle.std.specs.Prelude.{◌≡◌};
ghost use Rattle.token.specs.Result.{as_written, written, output};
ghost use Rattle.symbol.specs.Codes.{as_code, code_read, code_text};

use charset::Charset;
use token::reading::{LAST_PUNCTUATION, left_over, symbol_or_null_at, symbol_size};
use token::refusal::Refusal;
use writer::tokens::put_symbol;

// The code of the last symbol, S38b5f.
const LAST_CODE: u64 = 62592;

// Reads the symbol of a text by itself, as its code: 0 for null.
#[tactic(auto, using(crate::proofs::CodeReads::inside, crate::proofs::CodeReads::read_refused, crate::proofs::CodeReads::read_followed, crate::proofs::CodeReads::read_fine), unfolding(token::specs::Ends::left_over))]
fn read_code(set: Charset, s: &[u8]) -> Result<u16, Refusal>
    ensures { as_code result ≡ code_read set s.now }
{
    let code = symbol_or_null_at(set, s, 0, LAST_PUNCTUATION)?;
    let end = symbol_size(set);
    left_over(set, s.len(), end)?;
    Ok(code)
}

// Writes the symbol of a code by itself, and returns the text's length.
fn write_code(set: Charset, code: u64, out: &mut [u8]) -> Result<usize, Refusal>
    ensures answer { as_written result ≡ written out.old (code_text set code) }
    ensures memory { out.new ≡ output out.old (code_text set code) }
{
    if LAST_CODE < code {
        return Err(Refusal::CodeWrong);
    }
    let size = symbol_size(set);
    if out.len() < size {
        return Err(Refusal::RoomShort(size));
    }
    // `as`: a code is at most LAST_CODE
    Ok(put_symbol(set, out, 0, code as u16))
}

// C has a name for each set, in the functions from here on.

// The code of a symbol key: refused as 1 or 2.
pub fn key_to_code(key: &[u8]) -> Result<u16, Refusal>
    ensures { as_code result ≡ code_read Charset.Fsw key.now }
{
    read_code(Charset::Fsw, key)
}

// The code of an SWU character: refused as 1 or 2.
pub fn char_to_code(character: &[u8]) -> Result<u16, Refusal>
    ensures { as_code result ≡ code_read Charset.Swu character.now }
{
    read_code(Charset::Swu, character)
}

// Writes the key of a symbol: refused as 15 over code 62,592, then as 6.
pub fn code_to_key(code: u64, out: &mut [u8]) -> Result<usize, Refusal>
    ensures answer { as_written result ≡ written out.old (code_text Charset.Fsw code) }
    ensures memory { out.new ≡ output out.old (code_text Charset.Fsw code) }
{
    write_code(Charset::Fsw, code, out)
}

// Writes the SWU character of a symbol: refused as 15 over code 62,592, then as 6.
pub fn code_to_char(code: u64, out: &mut [u8]) -> Result<usize, Refusal>
    ensures answer { as_written result ≡ written out.old (code_text Charset.Swu code) }
    ensures memory { out.new ≡ output out.old (code_text Charset.Swu code) }
{
    write_code(Charset::Swu, code, out)
}
