// The boxes and the centre of a sign, and signs that are shifted or centred.
ghost use Rattle.std.specs.Prelude.{◌≡◌};
ghost use Rattle.token.specs.Result.{written, output};
ghost use Rattle.moving.specs.Moves.{shifted_text, centred_text};
ghost use Rattle.geometry.specs.Geometry.{bounds_of};
ghost use Rattle.layout.specs.Layouts.{set_of, written_numbers, bounds_numbers, centre_left};

use layout::boxes::bounds_numbers;
use layout::numbers::{set_of, written_numbers};

// The boxes of head, head with trunk and all: present, left, top, right, bottom of each; then twice the centre, x and y.
// The centre itself is written, x and y, and is as it was where the call is refused.
#[unsafe(no_mangle)]
pub extern "C" fn halofret_boxes(
    swu: bool,
    text: &[u8],
    sizes: &[u8],
    centre: &mut [f32; 2],
    answer: &mut [u64; 19],
)
    ensures answer { answer.new ≡ bounds_numbers (bounds_of (set_of swu) text.now sizes.now) }
    ensures memory { centre.new ≡ centre_left centre.old (bounds_of (set_of swu) text.now sizes.now) }
{
    let b = geometry::boxes(set_of(swu), text, sizes);
    *answer = bounds_numbers(b);
    if let Ok(b) = b {
        *centre = [b.centre.x, b.centre.y];
    }
}

// Writes a sign with a pair added to every coordinate and to the stated maximum.
#[unsafe(no_mangle)]
pub extern "C" fn halofret_shift(
    swu: bool,
    text: &[u8],
    dx: i32,
    dy: i32,
    out: &mut [u8],
    answer: &mut [u64; 3],
)
    ensures answer { answer.new ≡ written_numbers (written out.old (shifted_text (set_of swu) text.now dx dy)) }
    ensures memory { out.new ≡ output out.old (shifted_text (set_of swu) text.now dx dy) }
{
    *answer = written_numbers(geometry::shift(set_of(swu), text, dx, dy, out));
}

// Writes a sign with its centre, rounded down, at 500, and the whole box's maximum as the stated one.
#[unsafe(no_mangle)]
pub extern "C" fn halofret_centred(
    swu: bool,
    text: &[u8],
    sizes: &[u8],
    out: &mut [u8],
    answer: &mut [u64; 3],
)
    ensures answer { answer.new ≡ written_numbers (written out.old (centred_text (set_of swu) text.now sizes.now)) }
    ensures memory { out.new ≡ output out.old (centred_text (set_of swu) text.now sizes.now) }
{
    *answer = written_numbers(geometry::centred(set_of(swu), text, sizes, out));
}
