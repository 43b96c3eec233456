// Reading one character of a query in SWU byte by byte, so that the place of what is wrong is known to the byte.
ghost use Rattle.std.specs.Prelude.{◌≡◌, ◌+◌, ◌^◌, ◌≤◌};
ghost use Rattle.token.specs.Token.{token_at};
ghost use Rattle.querygrammar.specs.Scalar.{distance as distance_of, scalar};
ghost use Rattle.querygrammar.specs.Spelling.{query_number};
ghost use Rattle.querygrammar.proofs.Scalars.{shifted_strict};

use token::numerals::{Digit, digit_at, three_at, two_at};
use token::refusal::Refusal;

// A byte as its distance from another, and top + 1 for a byte before that.
fn distance(b: u8, from: u8, top: u16) -> u16
    requires { top ≤ 63 }
    ensures { result ≡ distance_of from top b }
{
    if b < from {
        return top + 1;
    }
    u16::from(b - from)
}

// The first byte of a character: F0 to F7 are 0 to 7.
#[derive(Clone, Copy)]
pub struct Lead;

impl Digit for Lead {
    ghost top = { 7 };

    ghost value = { distance_of 0xf0 7 };

    ghost byte = { λ d. 0xf0 + d };

    fn value_of(b: u8) -> u16 {
        distance(b, 0xf0, 7)
    }

    ghost strict = { shifted_strict 0xf0 7 };
}

// A byte after the first: 80 to BF are 0 to 63.
#[derive(Clone, Copy)]
pub struct Trail;

impl Digit for Trail {
    ghost top = { 63 };

    ghost value = { distance_of 0x80 63 };

    ghost byte = { λ d. 0x80 + d };

    fn value_of(b: u8) -> u16 {
        distance(b, 0x80, 63)
    }

    ghost strict = { shifted_strict 0x80 63 };
}

// A symbol's character, as its code from first, which is 0 (null) or 1, to the last, 62592: F1, and three bytes that say it.
pub fn symbol_at(s: &[u8], at: usize, first: u16) -> Result<u16, Refusal>
    requires { (at + 32 ≤ 2 ^ 64) × (first ≤ 1) }
    ensures { result ≡ token_at (scalar 0x40000 first 62592) s.now at }
{
    digit_at::<Lead>(s, at, 1, 1)?;
    three_at::<Trail>(s, at + 1, 4096, 64, first, 62592)
}

// A number's character: F0 9D, and two bytes that say 2060 to 2559, which are 250 to 749.
pub fn number_at(s: &[u8], at: usize) -> Result<u16, Refusal>
    requires { at + 32 ≤ 2 ^ 64 }
    ensures { result ≡ token_at query_number s.now at }
{
    digit_at::<Lead>(s, at, 0, 0)?;
    digit_at::<Trail>(s, at + 1, 29, 29)?;
    let n = two_at::<Trail>(s, at + 2, 64, 2060, 2559)?;
    Ok(n - 1810)
}
