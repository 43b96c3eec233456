// Signs with a styling string, and stylings. A styling is 3472 numbers: colorized, padding and one more, zoom in hundredths, how
// many detail colours and symbol styles, then the background and two detail colours, then 64 symbol styles of 53 numbers: kind
// (1 colours, 2 zoom), symbol number, zoom, and two colours. A colour is 25 numbers: its length and its bytes. Zeros elsewhere.
ghost use Rattle.std.specs.Prelude.{◌≡◌};
ghost use Rattle.token.specs.Result.{written, output};
ghost use Rattle.styling.specs.Reading.{styled_of, styled_reading, record_left};
ghost use Rattle.styling.specs.Transcription.{styled_transcription};
ghost use Rattle.styling.specs.Writing.{writing};
ghost use Rattle.layout.specs.Layouts.{set_of, written_numbers, reading_numbers, sign_left};

use grammar::Symbols;
use layout::numbers::{refused, set_of, written_numbers};
use layout::signs::put_sign;
use styling::text::{fill, styled_into};

// Reads a sign with its styling, the sign as halofret_read lays it out. Refused: both are as they were.
#[unsafe(no_mangle)]
pub extern "C" fn halofret_read_styled(
    swu: bool,
    text: &[u8],
    sign: &mut [u16; 325],
    styling: &mut [u16; 3472],
    answer: &mut [u64; 2],
)
    ensures answer { answer.new ≡ reading_numbers (styled_reading (set_of swu) text.now) }
    ensures memory { sign.new ≡ sign_left sign.old (styled_reading (set_of swu) text.now) }
    ensures styles { styling.new ≡ record_left styling.old (styled_of (set_of swu) text.now) }
{
    let mut symbols = Symbols::none();
    let mut draft = [0u16; 504];
    let set = set_of(swu);
    match styled_into(set, text, &mut symbols, &mut draft) {
        Ok((head, place)) => {
            *answer = [0, 0];
            put_sign(sign, set, head, &symbols);
            fill(&text[place..], &draft, styling);
        }
        Err(e) => *answer = refused(e),
    }
}

// Writes a sign in the other character set, and the bytes of its styling as they are.
#[unsafe(no_mangle)]
pub extern "C" fn halofret_transcribe_styled(
    swu: bool,
    text: &[u8],
    out: &mut [u8],
    answer: &mut [u64; 3],
)
    ensures answer { answer.new ≡ written_numbers (written out.old (styled_transcription (set_of swu) text.now)) }
    ensures memory { out.new ≡ output out.old (styled_transcription (set_of swu) text.now) }
{
    *answer = written_numbers(styling::transcribe_styled(set_of(swu), text, out));
}

// Writes the shortest styling string that reads as the record.
#[unsafe(no_mangle)]
pub extern "C" fn halofret_write_styling(
    styling: &[u16; 3472],
    out: &mut [u8],
    answer: &mut [u64; 3],
)
    ensures answer { answer.new ≡ written_numbers (written out.old (writing styling.now)) }
    ensures memory { out.new ≡ output out.old (writing styling.now) }
{
    *answer = written_numbers(styling::write_styling(styling, out));
}
