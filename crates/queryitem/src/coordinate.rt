// Reading the coordinate of an item in any edition, if there is one.
ghost use Rattle.std.specs.Prelude.{◌≡◌, ◌+◌, ◌^◌, ◌≤◌, length};
ghost use Rattle.token.specs.Token.{token_at};
ghost use Rattle.querygrammar.specs.Spelling.{spelling};
ghost use Rattle.queryitem.specs.Pieces.{number_size, coordinate_at};

use charset::Charset;
use querygrammar::Edition;
use token::refusal::Refusal;

// The first number.
fn number_at(s: &[u8], at: usize, edition: Edition) -> Result<u16, Refusal>
    requires { at + 64 ≤ 2 ^ 64 }
    ensures { result ≡ token_at (spelling edition).number s.now at }
{
    match edition {
        Edition::First | Edition::Second(Charset::Fsw) => {
            token::reading::number_at(Charset::Fsw, s, at)
        }
        Edition::Second(Charset::Swu) => scalar::reading::number_at(s, at),
    }
}

// The second number, with what stands before it.
fn second_at(s: &[u8], at: usize, edition: Edition) -> Result<u16, Refusal>
    requires { at + 64 ≤ 2 ^ 64 }
    ensures { result ≡ token_at (spelling edition).second s.now at }
{
    match edition {
        Edition::First | Edition::Second(Charset::Fsw) => {
            token::reading::second_at(Charset::Fsw, s, at)
        }
        Edition::Second(Charset::Swu) => scalar::reading::number_at(s, at),
    }
}

// The bytes of the first number. The second has four.
fn number_size(edition: Edition) -> usize
    ensures { result ≡ number_size edition }
{
    match edition {
        Edition::First | Edition::Second(Charset::Fsw) => 3,
        Edition::Second(Charset::Swu) => 4,
    }
}

// A coordinate, if there is one, and the offset after it.
pub fn coordinate_at(
    s: &[u8],
    at: usize,
    edition: Edition,
) -> Result<(Option<(u16, u16)>, usize), Refusal>
    requires { at ≤ length s.now }
    ensures { result ≡ coordinate_at edition s.now at }
{
    if s.len() <= at {
        return Ok((None, at));
    }
    match number_at(s, at, edition) {
        Ok(x) => {
            let next = at + number_size(edition);
            let y = second_at(s, next, edition)?;
            Ok((Some((x, y)), next + 4))
        }
        Err(refusal) if refusal.is_wrong_at(at) => Ok((None, at)),
        Err(refusal) => Err(refusal),
    }
}
