// Reading one item in any edition.
ghost use Rattle.std.specs.Prelude.{◌≡◌, ◌≤◌, length};
ghost use Rattle.queryitem.specs.Pieces.{in_swu, has_null, item_at};

use super::reading::{Numbers, fsw_item_at};
use super::swu::swu_item_at;
use charset::Charset;
use querygrammar::Edition;
use token::refusal::Refusal;

fn in_swu(edition: Edition) -> bool
    ensures { result ≡ in_swu edition }
{
    matches!(edition, Edition::Second(Charset::Swu))
}

// Whether null may be sought: in the prefix of the second edition.
fn has_null(edition: Edition, boxed: bool) -> bool
    ensures { result ≡ has_null edition boxed }
{
    match edition {
        Edition::First => false,
        Edition::Second(_) => !boxed,
    }
}

// An item of the signbox, or one of the prefix, where the second edition has null: in SWU its code is 0. Each reader of an item is
// called at one place, so that the compiler takes it in.
pub fn item_at(
    s: &[u8],
    at: usize,
    edition: Edition,
    boxed: bool,
) -> Result<(Numbers, usize), Refusal>
    requires { at ≤ length s.now }
    ensures { result ≡ item_at edition boxed s.now at }
{
    if in_swu(edition) {
        return swu_item_at(s, at, u16::from(boxed));
    }
    fsw_item_at(s, at, has_null(edition, boxed))
}
