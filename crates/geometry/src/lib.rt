// The boxes and the centre of a sign, and signs that are shifted or centred. Each entry takes any bytes and any numbers.
#![tactic(auto)]

ghost use Rattle.std.specs.Prelude.{◌≡◌};
ghost use Rattle.token.specs.Result.{as_written, written, output};
ghost use Rattle.moving.specs.Moves.{shifted_text, centred_text};
ghost use Rattle.geometry.specs.Geometry.{as_bounds, bounds_of, Exact};
ghost use Rattle.geometry.specs.Inner.{Bounding};

use bounds::centre::{Doubled, doubled_centre, half};
use bounds::groups::{ALL, Groups};
use bounds::measure::measure;
use charset::Charset;
use grammar::{Head, Symbols};
use moving::writing::{to_middle, write_moved};
use reader::arrays::read_into;
use token::refusal::Refusal;

// The centre of each axis.
#[derive(Clone, Copy)]
pub struct Centre {
    pub x: f32,
    pub y: f32,
}

// The boxes of head, head with trunk and all, each with whether it has a symbol; and the centre, doubled and by itself.
#[derive(Clone, Copy)]
pub struct Bounds {
    pub groups: Groups,
    pub doubled: Doubled,
    pub centre: Centre,
}

fn bounds_with(groups: Groups) -> Bounds
    ensures { Bounding groups result }
{
    let doubled = doubled_centre(groups);
    let x = half(doubled.x);
    let y = half(doubled.y);
    Bounds {
        groups,
        doubled,
        centre: Centre { x, y },
    }
}

// The boxes of a sign: refused as 1 to 4 by the reader, then as 7, 9, 8.
pub fn boxes(set: Charset, text: &[u8], sizes: &[u8]) -> Result<Bounds, Refusal>
    ensures answer { as_bounds result ≡ bounds_of set text.now sizes.now }
    ensures exact { Exact (as_bounds result) }
{
    let mut symbols = Symbols::none();
    let head = read_into(set, text, &mut symbols)?;
    let groups = measure(&symbols, head.symbol_count, sizes)?;
    Ok(bounds_with(groups))
}

// Writes a sign with a pair added to every coordinate and to the stated maximum, and returns the text's length: refused as 1 to 4 by
// the reader, then as 10, 6.
pub fn shift(set: Charset, text: &[u8], dx: i32, dy: i32, out: &mut [u8]) -> Result<usize, Refusal>
    ensures answer { as_written result ≡ written out.old (shifted_text set text.now dx dy) }
    ensures memory { out.new ≡ output out.old (shifted_text set text.now dx dy) }
{
    let mut symbols = Symbols::none();
    let head = read_into(set, text, &mut symbols)?;
    write_moved(set, head, &symbols, i64::from(dx), i64::from(dy), out)
}

// Writes a sign with its centre, rounded down, at 500, and the whole box's maximum as the stated one, and returns the text's length:
// refused as 1 to 4 by the reader, then as 7, 9, 8, 10, 6.
pub fn centred(set: Charset, text: &[u8], sizes: &[u8], out: &mut [u8]) -> Result<usize, Refusal>
    ensures answer { as_written result ≡ written out.old (centred_text set text.now sizes.now) }
    ensures memory { out.new ≡ output out.old (centred_text set text.now sizes.now) }
{
    let mut symbols = Symbols::none();
    let head = read_into(set, text, &mut symbols)?;
    let groups = measure(&symbols, head.symbol_count, sizes)?;
    let doubled = doubled_centre(groups);
    let whole = groups.boxes[ALL];
    let stated = Head {
        max_x: whole.right,
        max_y: whole.bottom,
        ..head
    };
    let x = to_middle(doubled.x);
    let y = to_middle(doubled.y);
    write_moved(set, stated, &symbols, x, y, out)
}
