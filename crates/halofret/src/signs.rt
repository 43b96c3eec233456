// Signs: reading, and transcription.
ghost use Rattle.std.specs.Prelude.{◌≡◌};
ghost use Rattle.token.specs.Result.{written, output};
ghost use Rattle.sign.specs.Reading.{reading_in};
ghost use Rattle.sign.specs.Transcription.{transcription};
ghost use Rattle.layout.specs.Layouts.{set_of, written_numbers, reading_numbers, sign_left};

use grammar::Symbols;
use layout::numbers::{refused, set_of, written_numbers};
use layout::signs::put_sign;
use reader::arrays::read_into;

// Reads a sign into 325 numbers: marker, maximum x and y, prefix count, symbol count, 32 prefix codes, then 64 codes, 64 x
// and 64 y of the signbox, then 32 offsets of the prefix and 64 of the signbox. Refused: all of them are as they were, and
// not zeros.
#[unsafe(no_mangle)]
pub extern "C" fn halofret_read(
    swu: bool,
    text: &[u8],
    sign: &mut [u16; 325],
    answer: &mut [u64; 2],
)
    ensures answer { answer.new ≡ reading_numbers (reading_in (set_of swu) text.now) }
    ensures memory { sign.new ≡ sign_left sign.old (reading_in (set_of swu) text.now) }
{
    let mut symbols = Symbols::none();
    let set = set_of(swu);
    match read_into(set, text, &mut symbols) {
        Ok(head) => {
            *answer = [0, 0];
            put_sign(sign, set, head, &symbols);
        }
        Err(e) => *answer = refused(e),
    }
}

// Writes a sign in the other character set.
#[unsafe(no_mangle)]
pub extern "C" fn halofret_transcribe(swu: bool, text: &[u8], out: &mut [u8], answer: &mut [u64; 3])
    ensures answer { answer.new ≡ written_numbers (written out.old (transcription (set_of swu) text.now)) }
    ensures memory { out.new ≡ output out.old (transcription (set_of swu) text.now) }
{
    *answer = written_numbers(sign::transcribe(set_of(swu), text, out));
}
