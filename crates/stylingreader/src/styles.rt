// Reading the styles of symbols: all that give colours, then all that give a zoom, each into a row of the record.
ghost use Rattle.std.specs.Prelude.{◌≡◌, ℕ, ◌≤◌, Bool, true, false, refl, length};
ghost use Rattle.stylinggrammar.specs.Styling.{two_digits, symbols};
ghost use Rattle.stylinggrammar.specs.Filling.{row_of};
ghost use Rattle.stylingreader.specs.Parts.{PartIn};
ghost use Rattle.stylingreader.specs.Takings.{take_number, kind, style, styles, take_styles, take_symbols};

use super::colour::detail_at;
use super::part::{Part, put, stands};
use super::zoom::zoom_at;
use stylinggrammar::layout::{
    COLOURED, FIRST_ROW, MOST_STYLES, ROW, ROW_DETAIL, ROW_NUMBER, ROW_ZOOM, STYLES, ZOOMED,
};
use token::numerals::{Hexadecimal, two_at};
use token::reading::byte_at;
use token::refusal::Refusal;

// A kind of symbol styles.
trait Style {
    const LETTER: u8;

    const KIND: u16;

    ghost LETTER: { ℕ };

    ghost KIND: { ℕ };

    ghost zoomed: { Bool };

    // What follows the symbol's number, into a row.
    fn says_at(s: &[u8], at: usize, to: &mut [u16], row: usize) -> Result<Part, Refusal>
        requires { (at ≤ length s.now) × (row ≤ 3472) }
        ensures { PartIn (kind zoomed).says ((kind zoomed).taken row) s.now at result to.old to.new };

    ghost lettered: { LETTER ≡ (kind zoomed).letter };

    ghost numbered: { KIND ≡ (kind zoomed).number };
}

struct Coloured;

struct Zoomed;

impl Style for Coloured {
    const LETTER: u8 = b'D';

    const KIND: u16 = COLOURED;

    ghost LETTER = { 68 };

    ghost KIND = { 1 };

    ghost zoomed = { false };

    ghost lettered = { refl };

    ghost numbered = { refl };

    fn says_at(s: &[u8], at: usize, to: &mut [u16], row: usize) -> Result<Part, Refusal> {
        detail_at(s, at, to, row + ROW_DETAIL)
    }
}

impl Style for Zoomed {
    const LETTER: u8 = b'Z';

    const KIND: u16 = ZOOMED;

    ghost LETTER = { 90 };

    ghost KIND = { 2 };

    ghost zoomed = { true };

    ghost lettered = { refl };

    ghost numbered = { refl };

    fn says_at(s: &[u8], at: usize, to: &mut [u16], row: usize) -> Result<Part, Refusal> {
        byte_at(s, at, b',')?;
        zoom_at(s, at + 1, to, row + ROW_ZOOM)
    }
}

// Two digits, put as a number by some more.
pub fn number_at(s: &[u8], at: usize, to: &mut [u16], i: usize, more: u16) -> Result<Part, Refusal>
    requires { (at ≤ length s.now) × (more ≤ 1) }
    ensures { PartIn two_digits (take_number i more) s.now at result to.old to.new }
{
    let n = two_at::<Hexadecimal>(s, at, 10, 0, 99)?;
    put(to, i, more + n);
    Ok(Part::passed(at + 2, 0))
}

// What follows the letter of a symbol style, into a row.
fn style_at<S: Style>(s: &[u8], at: usize, to: &mut [u16], row: usize) -> Result<Part, Refusal>
    requires { (at ≤ length s.now) × (row ≤ 3472) }
    ensures { PartIn (style S.zoomed) ((kind S.zoomed).take row) s.now at result to.old to.new }
{
    put(to, row, S::KIND);
    let n = number_at(s, at, to, row + ROW_NUMBER, 0)?;
    let says = S::says_at(s, n.place, to, row)?;
    Ok(n.joined(says))
}

// Where the row of a symbol style starts; after the record where there are more than 64.
fn row_of(n: u16) -> usize
    ensures { result ≡ row_of n }
{
    FIRST_ROW + ROW * usize::from(n.min(MOST_STYLES))
}

// Symbol styles of one kind as far as they go, of which the first has the number from. They are counted up to 65, which stands for
// every number above.
fn styles_at<S: Style>(s: &[u8], at: usize, to: &mut [u16], from: u16) -> Result<Part, Refusal>
    requires { (at ≤ length s.now) × (from ≤ 65) }
    ensures { PartIn (styles S.zoomed) (take_styles S.zoomed from) s.now at result to.old to.new }
{
    let mut all = Part::passed(at, from);
    // a `while`, since how far a style goes is known once it is read
    while stands(s, all.place, S::LETTER) {
        let one = style_at::<S>(s, all.place + 1, to, row_of(all.amount))?;
        all = Part {
            amount: (all.amount + 1).min(65),
            ..all.joined(one)
        };
    }
    Ok(all)
}

// The symbol styles, and how many they are.
pub fn symbols_at(s: &[u8], at: usize, to: &mut [u16]) -> Result<Part, Refusal>
    requires { at ≤ length s.now }
    ensures { PartIn symbols take_symbols s.now at result to.old to.new }
{
    let colours = styles_at::<Coloured>(s, at, to, 0)?;
    let zooms = styles_at::<Zoomed>(s, colours.place, to, colours.amount)?;
    put(to, STYLES, zooms.amount);
    Ok(colours.joined(zooms))
}
