// Why a call is refused: the refusals of document 01, "Refusal numbers", and those of document 02 from 17 on.
ghost use Rattle.std.specs.Prelude.{◌≡◌};
ghost use Rattle.token.specs.Refusal.{number_of, place_of, wrong_at};

use std::fmt;

// A refusal holds its place, where it has one.
#[derive(Clone, Copy, Debug, PartialEq, Eq)]
pub enum Refusal {
    // the first byte (in SWU the first group) that is not allowed, or the coordinate number that it is in
    TextWrong(usize),
    // the text's length
    TextShort(usize),
    PrefixLong,
    SignboxLong,
    // the first R whose end is below its start
    RangeReversed(usize),
    // the room needed
    RoomShort(usize),
    SizesLength,
    // the number of the first such symbol, from 1
    SymbolUnsized(usize),
    NoSymbols,
    NumberOutside,
    ListWrong,
    DictionaryUnended,
    // the line's number, from 1
    LineWrong(usize),
    TooMany,
    CodeWrong,
    EntryAbsent,
    ZoomOutside,
    ColourLong,
    StylesLong,
    // an item of a query has more than eight alternatives
    AlternativesLong,
}

impl Refusal {
    pub fn number(self) -> u8
        ensures { result ≡ number_of self }
    {
        match self {
            Refusal::TextWrong(_) => 1,
            Refusal::TextShort(_) => 2,
            Refusal::PrefixLong => 3,
            Refusal::SignboxLong => 4,
            Refusal::RangeReversed(_) => 5,
            Refusal::RoomShort(_) => 6,
            Refusal::SizesLength => 7,
            Refusal::SymbolUnsized(_) => 8,
            Refusal::NoSymbols => 9,
            Refusal::NumberOutside => 10,
            Refusal::ListWrong => 11,
            Refusal::DictionaryUnended => 12,
            Refusal::LineWrong(_) => 13,
            Refusal::TooMany => 14,
            Refusal::CodeWrong => 15,
            Refusal::EntryAbsent => 16,
            Refusal::ZoomOutside => 17,
            Refusal::ColourLong => 18,
            Refusal::StylesLong => 19,
            Refusal::AlternativesLong => 22,
        }
    }

    // Where it is: 0 where the refusal has no place.
    pub fn place(self) -> usize
        ensures { result ≡ place_of self }
    {
        match self {
            Refusal::TextWrong(place)
            | Refusal::TextShort(place)
            | Refusal::RangeReversed(place)
            | Refusal::RoomShort(place)
            | Refusal::SymbolUnsized(place)
            | Refusal::LineWrong(place) => place,
            _ => 0,
        }
    }

    // Whether nothing that is allowed stands at an offset.
    pub fn is_wrong_at(self, at: usize) -> bool
        ensures { result ≡ wrong_at at self }
    {
        match self {
            Refusal::TextWrong(place) => place == at,
            _ => false,
        }
    }
}

impl fmt::Display for Refusal {
    fn fmt<W: fmt::Write>(&self, f: &mut fmt::Formatter<W>) -> fmt::Result {
        let number = self.number();
        let place = self.place();
        write!(f, "refused as {number} at {place}")
    }
}
