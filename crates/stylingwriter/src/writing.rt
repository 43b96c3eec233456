// Writing the styling in a record as its shortest text. Any record gives some text: whether it is the record's own is found by
// reading it.
ghost use Rattle.std.specs.Prelude.{◌≡◌, ℕ, List, ◌+◌, ◌≤◌, length};
ghost use Rattle.std.specs.List.{flat_map, sum_by};
ghost use Rattle.token.specs.Wrote.{Wrote};
ghost use Rattle.stylinggrammar.specs.Styling.{background, detail, decimal, two_digits};
ghost use Rattle.stylinggrammar.specs.Meaning.{Style as Styled, decimal_of, styling_text};
ghost use Rattle.stylinggrammar.specs.Record.{styles_from, styling_in};
ghost use Rattle.stylingwriter.specs.Held.{colour_of, detail_of, style_of};
ghost use Rattle.stylingwriter.specs.Pieces.{given_text, colorize_text, coloured_text, coloured_room, zoomed_text, zoomed_room, symbols_text};

use crate::figures::put_zoom;
use crate::parts::{Colour, Detail, Style, TwoDigits, Zoom};
use crate::record::Record;
use writer::tokens::{put_byte, put_two};

// Each letter of a colour as a byte. `as` here: the remainder fits, and try_from would have an Err that nothing gives.
fn put_colour(out: &mut [u8], at: usize, colour: &Colour<'_>) -> usize
    requires { at + 24 ≤ length out.old }
    ensures wrote { Wrote out.old out.new at result (colour_of colour.now) }
    ensures most { result ≤ at + 24 }
{
    let mut next = at;
    for letter in colour.letters {
        next = put_byte(out, next, (*letter % 256) as u8);
    }
    next
}

// A piece of a styling string that stands after a letter.
trait Piece {
    // its text, and how many bytes are room for any
    ghost text: { Self → List ℕ };

    ghost room: { ℕ };

    fn put(&self, out: &mut [u8], at: usize) -> usize
        requires { at + room ≤ length out.old }
        ensures wrote { Wrote out.old out.new at result (text self.now) }
        ensures most { result ≤ at + room };
}

impl Piece for TwoDigits {
    ghost text = { λ n. two_digits.write n.value };

    ghost room = { 2 };

    fn put(&self, out: &mut [u8], at: usize) -> usize {
        put_two(out, at, 10, self.value)
    }
}

impl Piece for Zoom {
    ghost text = { λ z. decimal.write (decimal_of z.hundredths) };

    ghost room = { 5 };

    fn put(&self, out: &mut [u8], at: usize) -> usize {
        put_zoom(out, at, self.hundredths)
    }
}

// The background colour, between underscores.
impl Piece for Colour<'_> {
    ghost text = { λ c. background.write (colour_of c) };

    ghost room = { 26 };

    fn put(&self, out: &mut [u8], at: usize) -> usize {
        let first = put_byte(out, at, b'_');
        let last = put_colour(out, first, self);
        put_byte(out, last, b'_')
    }
}

// A line colour, and the fill colour after it where there is one, between underscores.
impl Piece for Detail<'_> {
    ghost text = { λ d. detail.write (detail_of d) };

    ghost room = { 51 };

    fn put(&self, out: &mut [u8], at: usize) -> usize {
        let first = put_byte(out, at, b'_');
        let line = put_colour(out, first, &self.line);
        let Some(fill) = self.fill else {
            return put_byte(out, line, b'_');
        };
        let comma = put_byte(out, line, b',');
        let last = put_colour(out, comma, &fill);
        put_byte(out, last, b'_')
    }
}

// A letter and a piece, where there is one.
fn put_given<P: Piece + Copy>(out: &mut [u8], at: usize, letter: u8, piece: Option<P>) -> usize
    requires { at + (1 + P.room) ≤ length out.old }
    ensures wrote { Wrote out.old out.new at result (given_text letter P.text piece) }
    ensures most { result ≤ at + (1 + P.room) }
{
    match piece {
        None => at,
        Some(piece) => {
            let next = put_byte(out, at, letter);
            piece.put(out, next)
        }
    }
}

// The symbol styles of one kind: those of the other have no text.
trait Kind {
    // the text of a style, and how many bytes are room for it
    ghost text: { Styled → List ℕ };

    ghost room: { Styled → ℕ };

    fn put(out: &mut [u8], at: usize, style: &Style<'_>) -> usize
        requires { at + room (style_of style.now) ≤ length out.old }
        ensures wrote { Wrote out.old out.new at result (text (style_of style.now)) }
        ensures most { result ≤ at + room (style_of style.now) };
}

struct Colours;

impl Kind for Colours {
    ghost text = { coloured_text };

    ghost room = { coloured_room };

    fn put(out: &mut [u8], at: usize, style: &Style<'_>) -> usize {
        match style {
            Style::Coloured(number, detail) => {
                let letter = put_byte(out, at, b'D');
                let next = number.put(out, letter);
                detail.put(out, next)
            }
            Style::Zoomed(_, _) => at,
        }
    }
}

struct Zooms;

impl Kind for Zooms {
    ghost text = { zoomed_text };

    ghost room = { zoomed_room };

    fn put(out: &mut [u8], at: usize, style: &Style<'_>) -> usize {
        match style {
            Style::Coloured(_, _) => at,
            Style::Zoomed(number, zoom) => {
                let letter = put_byte(out, at, b'Z');
                let next = number.put(out, letter);
                let comma = put_byte(out, next, b',');
                zoom.put(out, comma)
            }
        }
    }
}

// The first n symbol styles, as far as they are of one kind.
fn put_styles<K: Kind>(out: &mut [u8], at: usize, styling: &Record<'_>, n: usize) -> usize
    requires { (n ≤ 64) × (at + sum_by K.room (styles_from styling.now.numbers.now 0 n) ≤ length out.old) }
    ensures wrote { Wrote out.old out.new at result (flat_map K.text (styles_from styling.now.numbers.now 0 n)) }
    ensures most { result ≤ at + sum_by K.room (styles_from styling.now.numbers.now 0 n) }
{
    let mut next = at;
    for k in 0..n {
        next = K::put(out, next, &styling.style(k));
    }
    next
}

// C, if the sign is colorized.
fn put_colorize(out: &mut [u8], at: usize, styling: &Record<'_>) -> usize
    requires { at + 1 ≤ length out.old }
    ensures wrote { Wrote out.old out.new at result (colorize_text (styling_in styling.now.numbers.now)) }
    ensures most { result ≤ at + 1 }
{
    if !styling.colorized() {
        return at;
    }
    put_byte(out, at, b'C')
}

// A dash and the symbol styles, if there are any: all colours stand before all zooms.
fn put_symbols(out: &mut [u8], at: usize, styling: &Record<'_>) -> usize
    requires { at + 3457 ≤ length out.old }
    ensures { Wrote out.old out.new at result (symbols_text (styling_in styling.now.numbers.now)) }
{
    let n = styling.styles();
    if n == 0 {
        return at;
    }
    let dash = put_byte(out, at, b'-');
    let colours = put_styles::<Colours>(out, dash, styling, n);
    put_styles::<Zooms>(out, colours, styling, n)
}

// Puts the text of the styling in a record at the start of the output, and returns its length.
pub fn put_styling(w: &[u16], out: &mut [u8]) -> usize
    requires { (length w.now ≡ 3472) × (3547 ≤ length out.old) }
    ensures { Wrote out.old out.new 0 result (styling_text (styling_in w.now)) }
{
    let styling = Record { numbers: w };
    let dash = put_byte(out, 0, b'-');
    let colorize = put_colorize(out, dash, &styling);
    let padding = put_given(out, colorize, b'P', styling.padding());
    let background = put_given(out, padding, b'G', styling.background());
    let detail = put_given(out, background, b'D', styling.detail());
    let zoom = put_given(out, detail, b'Z', styling.zoom());
    put_symbols(out, zoom, &styling)
}
