// Reading a colour, and the detail colours.
ghost use Rattle.std.specs.Prelude.{◌≡◌, ◌&&◌, ◌+◌, ◌≤◌, length};
ghost use Rattle.stylinggrammar.specs.Styling.{letter, hexadecimal, colour, background, line_and_fill, detail};
ghost use Rattle.stylingreader.specs.Parts.{PartIn};
ghost use Rattle.stylingreader.specs.Takings.{goes_on, is_whole, kept_byte, ColourEnds, fill, take_colour, take_fill, take_detail};

use super::part::{Part, missing, put, stands};
use stylinggrammar::layout::{COLOUR, MOST_LETTERS};
use token::reading::byte_at;
use token::refusal::Refusal;

// Whether some bytes all are letters, and whether they all are hexadecimal digits.
#[derive(Clone, Copy)]
struct Classes {
    letters: bool,
    hexadecimal: bool,
}

impl Classes {
    // With a byte more. Both tests are made, so that the compiler needs no branch.
    #[tactic(auto, using(crate::proofs::Colours::letter_is, crate::proofs::Colours::hexadecimal_is))]
    fn with(self, b: u8) -> Classes
        ensures letters { result.letters ≡ (self.letters && letter b) }
        ensures hexadecimal { result.hexadecimal ≡ (self.hexadecimal && hexadecimal b) }
    {
        Classes {
            letters: self.letters & b.is_ascii_alphabetic(),
            hexadecimal: self.hexadecimal & b.is_ascii_hexdigit(),
        }
    }

    // Whether n bytes begin a colour.
    fn begins(self, n: usize) -> bool
        ensures { result ≡ goes_on self.letters self.hexadecimal n }
    {
        self.letters || self.hexadecimal && n <= 6
    }

    // Whether n bytes are a colour.
    #[tactic(auto, unfolding(crate::specs::Takings::is_whole))]
    fn is_whole(self, n: usize) -> bool
        ensures { result ≡ is_whole self.letters self.hexadecimal n }
    {
        self.letters && 1 <= n || self.hexadecimal && (n == 3 || n == 6)
    }
}

// Byte n of a colour that is put at an offset of the memory.
#[tactic(auto, unfolding(crate::specs::Takings::kept_byte))]
fn keep_byte(to: &mut [u16], base: usize, n: usize, b: u8)
    requires { base ≤ 65535 }
    ensures { to.new ≡ kept_byte to.old base n b }
{
    if n < MOST_LETTERS {
        put(to, base + 1 + n, u16::from(b));
    }
}

// The end of a colour of n bytes at an offset: its length is put before its bytes, as 25 where it is longer. `as`, since 25 fits.
#[tactic(auto, unfolding(crate::specs::Takings::colour_part))]
fn colour_end(
    s: &[u8],
    i: usize,
    to: &mut [u16],
    base: usize,
    n: usize,
    classes: Classes,
) -> Result<Part, Refusal>
    ensures { ColourEnds s.now i base n classes.letters classes.hexadecimal result to.old to.new }
{
    put(to, base, n.min(25) as u16);
    if !classes.is_whole(n) {
        return Err(missing(s, i));
    }
    Ok(Part {
        zooms: true,
        place: i,
        names: n <= MOST_LETTERS,
        amount: 0,
    })
}

// A colour: as many bytes as begin one.
pub fn colour_at(s: &[u8], at: usize, to: &mut [u16], base: usize) -> Result<Part, Refusal>
    requires { (at ≤ length s.now) × (base ≤ 65535) }
    ensures { PartIn colour (take_colour base) s.now at result to.old to.new }
{
    let mut classes = Classes {
        letters: true,
        hexadecimal: true,
    };
    for i in at..s.len() {
        let more = classes.with(s[i]);
        if !more.begins(i - at + 1) {
            return colour_end(s, i, to, base, i - at, classes);
        }
        keep_byte(to, base, i - at, s[i]);
        classes = more;
    }
    colour_end(s, s.len(), to, base, s.len() - at, classes)
}

// A fill colour after a comma, if there is one.
fn fill_at(s: &[u8], at: usize, to: &mut [u16], base: usize) -> Result<Part, Refusal>
    requires { (at ≤ length s.now) × (base ≤ 65535) }
    ensures { PartIn fill (take_fill base) s.now at result to.old to.new }
{
    if !stands(s, at, b',') {
        return Ok(Part::passed(at, 1));
    }
    let second = colour_at(s, at + 1, to, base)?;
    Ok(Part {
        amount: 2,
        ..second
    })
}

fn line_and_fill_at(s: &[u8], at: usize, to: &mut [u16], base: usize) -> Result<Part, Refusal>
    requires { (at ≤ length s.now) × (base + 25 ≤ 65535) }
    ensures { PartIn line_and_fill (take_detail base) s.now at result to.old to.new }
{
    let line = colour_at(s, at, to, base)?;
    let second = fill_at(s, line.place, to, base + COLOUR)?;
    Ok(line.joined(second))
}

// A line colour and perhaps a fill colour, between underscores. This and the next are two functions: a closure for what stands between
// writes into the memory, and would need clauses of its own.
pub fn detail_at(s: &[u8], at: usize, to: &mut [u16], base: usize) -> Result<Part, Refusal>
    requires { (at ≤ length s.now) × (base + 25 ≤ 65535) }
    ensures { PartIn detail (take_detail base) s.now at result to.old to.new }
{
    byte_at(s, at, b'_')?;
    let colours = line_and_fill_at(s, at + 1, to, base)?;
    colours.closed(s, b'_')
}

// The background colour, between underscores.
pub fn background_at(s: &[u8], at: usize, to: &mut [u16], base: usize) -> Result<Part, Refusal>
    requires { (at ≤ length s.now) × (base ≤ 65535) }
    ensures { PartIn background (take_colour base) s.now at result to.old to.new }
{
    byte_at(s, at, b'_')?;
    let one = colour_at(s, at + 1, to, base)?;
    one.closed(s, b'_')
}
