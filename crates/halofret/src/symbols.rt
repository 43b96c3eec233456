// Symbol keys, symbol codes and SWU characters.
ghost use Rattle.std.specs.Prelude.{◌≡◌};
ghost use Rattle.symbol.specs.Codes.{code_read, code_text};
ghost use Rattle.token.specs.Result.{written, output};
ghost use Rattle.layout.specs.Layouts.{code_numbers, written_numbers};

use charset::Charset;
use layout::numbers::{code_numbers, written_numbers};

// The code of a symbol key.
#[unsafe(no_mangle)]
pub extern "C" fn halofret_key_to_code(key: &[u8], answer: &mut [u64; 3])
    ensures { answer.new ≡ code_numbers (code_read Charset.Fsw key.now) }
{
    *answer = code_numbers(symbol::key_to_code(key));
}

// The code of an SWU character.
#[unsafe(no_mangle)]
pub extern "C" fn halofret_char_to_code(character: &[u8], answer: &mut [u64; 3])
    ensures { answer.new ≡ code_numbers (code_read Charset.Swu character.now) }
{
    *answer = code_numbers(symbol::char_to_code(character));
}

// Writes the key of a symbol.
#[unsafe(no_mangle)]
pub extern "C" fn halofret_code_to_key(code: u64, out: &mut [u8], answer: &mut [u64; 3])
    ensures answer { answer.new ≡ written_numbers (written out.old (code_text Charset.Fsw code)) }
    ensures memory { out.new ≡ output out.old (code_text Charset.Fsw code) }
{
    *answer = written_numbers(symbol::code_to_key(code, out));
}

// Writes the SWU character of a symbol.
#[unsafe(no_mangle)]
pub extern "C" fn halofret_code_to_char(code: u64, out: &mut [u8], answer: &mut [u64; 3])
    ensures answer { answer.new ≡ written_numbers (written out.old (code_text Charset.Swu code)) }
    ensures memory { out.new ≡ output out.old (code_text Charset.Swu code) }
{
    *answer = written_numbers(symbol::code_to_char(code, out));
}
