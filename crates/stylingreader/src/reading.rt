// Reading a styling string at an offset of a text, part by part. Each part is put into lent memory as far as that reaches.
ghost use Rattle.std.specs.Prelude.{◌≡◌, ◌&&◌, ◌≤◌, length};
ghost use Rattle.stylinggrammar.specs.Styling.{from_symbols, parts, styling};
ghost use Rattle.stylingreader.specs.Parts.{PartIn, perhaps};
ghost use Rattle.stylingreader.specs.Takings.{maybe_colorize, maybe_padding, maybe_background, maybe_detail, maybe_zoom, take_colour, take_number, take_zoom};
ghost use Rattle.stylingreader.specs.Takings.{take_colorize, take_details, take_from_symbols, take_parts, take_spelling};
ghost use Rattle.stylingreader.specs.Reading.{StylingIn};

use super::part::{Part, put, stands};
use stylinggrammar::layout::{BACKGROUND, COLORIZE, DETAIL, DETAILS, MOST_STYLES, PADDING, ZOOM};
use token::reading::byte_at;
use token::refusal::Refusal;

// Whether the zooms of a styling string are in range with at most two decimals, its colour names not too long, and its symbol styles
// not too many.
#[derive(Clone, Copy)]
pub struct Found {
    pub zooms: bool,
    pub names: bool,
    pub few: bool,
}

impl Found {
    pub fn is_within_limits(self) -> bool
        ensures { result ≡ (self.zooms && (self.names && self.few)) }
    {
        self.zooms && self.names && self.few
    }
}

// THE PARTS, each of which may be absent. Each asks for its own letter first: a closure for what follows it would be no plainer.

fn colorize_at(s: &[u8], at: usize, to: &mut [u16]) -> Part
    requires { at ≤ length s.now }
    ensures { PartIn maybe_colorize take_colorize s.now at (Ok result) to.old to.new }
{
    if !stands(s, at, b'C') {
        return Part::passed(at, 0);
    }
    put(to, COLORIZE, 1);
    Part::passed(at + 1, 0)
}

fn padding_at(s: &[u8], at: usize, to: &mut [u16]) -> Result<Part, Refusal>
    requires { at ≤ length s.now }
    ensures { PartIn maybe_padding (perhaps (take_number 1 1)) s.now at result to.old to.new }
{
    if !stands(s, at, b'P') {
        return Ok(Part::passed(at, 0));
    }
    super::styles::number_at(s, at + 1, to, PADDING, 1)
}

fn background_at(s: &[u8], at: usize, to: &mut [u16]) -> Result<Part, Refusal>
    requires { at ≤ length s.now }
    ensures { PartIn maybe_background (perhaps (take_colour 5)) s.now at result to.old to.new }
{
    if !stands(s, at, b'G') {
        return Ok(Part::passed(at, 0));
    }
    super::colour::background_at(s, at + 1, to, BACKGROUND)
}

// Detail colours, and how many they are.
fn detail_at(s: &[u8], at: usize, to: &mut [u16]) -> Result<Part, Refusal>
    requires { at ≤ length s.now }
    ensures { PartIn maybe_detail (perhaps take_details) s.now at result to.old to.new }
{
    if !stands(s, at, b'D') {
        return Ok(Part::passed(at, 0));
    }
    let colours = super::colour::detail_at(s, at + 1, to, DETAIL)?;
    put(to, DETAILS, colours.amount);
    Ok(colours)
}

fn zoom_at(s: &[u8], at: usize, to: &mut [u16]) -> Result<Part, Refusal>
    requires { at ≤ length s.now }
    ensures { PartIn maybe_zoom (perhaps (take_zoom 2)) s.now at result to.old to.new }
{
    if !stands(s, at, b'Z') {
        return Ok(Part::passed(at, 0));
    }
    super::zoom::zoom_at(s, at + 1, to, ZOOM)
}

// The symbol styles after a second dash.
fn from_symbols(s: &[u8], at: usize, to: &mut [u16]) -> Result<Part, Refusal>
    requires { at ≤ length s.now }
    ensures { PartIn from_symbols take_from_symbols s.now at result to.old to.new }
{
    if !stands(s, at, b'-') {
        return Ok(Part::passed(at, 0));
    }
    super::styles::symbols_at(s, at + 1, to)
}

// All parts, one after the other.
fn parts_at(s: &[u8], at: usize, to: &mut [u16]) -> Result<Part, Refusal>
    requires { at ≤ length s.now }
    ensures { PartIn parts take_parts s.now at result to.old to.new }
{
    let colorize = colorize_at(s, at, to);
    let padding = padding_at(s, colorize.place, to)?;
    let ground = background_at(s, padding.place, to)?;
    let colours = detail_at(s, ground.place, to)?;
    let zoom = zoom_at(s, colours.place, to)?;
    let symbols = from_symbols(s, zoom.place, to)?;
    let from_colours = colours.joined(zoom.joined(symbols));
    Ok(colorize.joined(padding.joined(ground.joined(from_colours))))
}

// THE STYLING STRING

// From its dash on.
fn spelling_at(s: &[u8], at: usize, to: &mut [u16]) -> Result<Part, Refusal>
    ensures { PartIn styling take_spelling s.now at result to.old to.new }
{
    byte_at(s, at, b'-')?;
    parts_at(s, at + 1, to)
}

// The styling string from its dash at an offset up to the end of the text. Each part is put into the memory as it is read.
pub fn styling_at(s: &[u8], at: usize, to: &mut [u16]) -> Result<Found, Refusal>
    requires { at ≤ length s.now }
    ensures { StylingIn s.now at result to.old to.new }
{
    let all = spelling_at(s, at, to)?;
    if all.place < s.len() {
        return Err(Refusal::TextWrong(all.place));
    }
    Ok(Found {
        zooms: all.zooms,
        names: all.names,
        few: all.amount <= MOST_STYLES,
    })
}
