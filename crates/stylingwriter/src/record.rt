// What a record holds. Numbers that no styling has are brought into range, so that any record holds some styling.
ghost use Rattle.std.specs.Prelude.{◌≡◌, ◌+◌, ◌≤◌, ◌<◌, min, length};
ghost use Rattle.stylinggrammar.specs.Record.{number_at, colour_at, colour_at_or_none, row_at, style_at, styling_in};
ghost use Rattle.stylingwriter.specs.Held.{given_as, colour_of, detail_of, style_of};

use crate::parts::{Colour, Detail, Style, TwoDigits, Zoom};
use stylinggrammar::layout::{
    BACKGROUND, COLORIZE, COLOUR, COLOURED, DETAIL, DETAILS, FIRST_ROW, MOST_LETTERS, MOST_STYLES,
    PADDING, ROW, ROW_DETAIL, ROW_FILL, ROW_NUMBER, ROW_ZOOM, STYLES, ZOOM,
};

// The 3472 numbers in which a styling lies: they cross into C, as one array of fixed memory.
#[derive(Clone, Copy)]
pub struct Record<'a> {
    pub numbers: &'a [u16],
    ghost full: { length numbers.now ≡ 3472 },
}

#[tactic(auto, unfolding(stylinggrammar::specs::Record::styling_in))]
impl<'a> Record<'a> {
    // The colour at an offset: its length, and its bytes.
    fn colour(&self, at: usize) -> Colour<'a>
        requires { at + 25 ≤ 3472 }
        ensures { colour_of result ≡ colour_at self.now.numbers.now at }
    {
        let size = usize::from(self.numbers[at]).min(MOST_LETTERS);
        Colour {
            letters: &self.numbers[at + 1..at + 1 + size],
        }
    }

    fn colour_or_none(&self, at: usize) -> Option<Colour<'a>>
        requires { at + 25 ≤ 3472 }
        ensures { given_as colour_of result ≡ colour_at_or_none self.now.numbers.now at }
    {
        match self.numbers[at] {
            0 => None,
            _ => Some(self.colour(at)),
        }
    }

    pub fn colorized(&self) -> bool
        ensures { result ≡ (styling_in self.now.numbers.now).colorize }
    {
        self.numbers[COLORIZE] == 1
    }

    pub fn padding(&self) -> Option<TwoDigits>
        ensures { given_as (λ n. n.value) result ≡ (styling_in self.now.numbers.now).padding }
    {
        match self.numbers[PADDING] {
            0 => None,
            n => Some(TwoDigits::of(n - 1)),
        }
    }

    pub fn background(&self) -> Option<Colour<'a>>
        ensures { given_as colour_of result ≡ (styling_in self.now.numbers.now).background }
    {
        self.colour_or_none(BACKGROUND)
    }

    pub fn detail(&self) -> Option<Detail<'a>>
        ensures { given_as detail_of result ≡ (styling_in self.now.numbers.now).detail }
    {
        let line = self.colour(DETAIL);
        match self.numbers[DETAILS] {
            0 => None,
            1 => Some(Detail { line, fill: None }),
            _ => {
                let fill = Some(self.colour(DETAIL + COLOUR));
                Some(Detail { line, fill })
            }
        }
    }

    pub fn zoom(&self) -> Option<Zoom>
        ensures { given_as (λ z. z.hundredths) result ≡ (styling_in self.now.numbers.now).zoom }
    {
        match self.numbers[ZOOM] {
            0 => None,
            n => Some(Zoom::of(n)),
        }
    }

    // How many symbol styles there are.
    pub fn styles(&self) -> usize
        ensures { result ≡ min 64 (number_at self.now.numbers.now 4) }
    {
        usize::from(self.numbers[STYLES].min(MOST_STYLES))
    }

    pub fn style(&self, k: usize) -> Style<'a>
        requires { k < 64 }
        ensures { style_of result ≡ style_at self.now.numbers.now (row_at k) }
    {
        let row = FIRST_ROW + ROW * k;
        let number = TwoDigits::of(self.numbers[row + ROW_NUMBER]);
        if self.numbers[row] != COLOURED {
            return Style::Zoomed(number, Zoom::of(self.numbers[row + ROW_ZOOM]));
        }
        let line = self.colour(row + ROW_DETAIL);
        let fill = self.colour_or_none(row + ROW_FILL);
        Style::Coloured(number, Detail { line, fill })
    }
}
