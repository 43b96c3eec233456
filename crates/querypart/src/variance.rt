// The end of a query: V and one to three digits, or nothing.
ghost use Rattle.std.specs.Prelude.{◌≡◌, ◌+◌, ◌^◌, ◌≤◌, length};
ghost use Rattle.querypart.specs.Inner.{figures_end, variance_end};

use token::numerals::{Hexadecimal, digit_at};
use token::refusal::Refusal;

// One to three digits up to the end of the text.
fn figures_end(s: &[u8], at: usize) -> Result<u16, Refusal>
    requires { at ≤ length s.now }
    ensures { result ≡ figures_end s.now at }
{
    let mut n: u16 = 0;
    for i in at..at + 3 {
        n = n * 10 + digit_at::<Hexadecimal>(s, i, 0, 9)?;
        if s.len() <= i + 1 {
            return Ok(n);
        }
    }
    Err(Refusal::TextWrong(at + 3))
}

// The variance, which is 20 if unsaid, up to the end of the text.
pub fn variance_end(s: &[u8], at: usize) -> Result<u16, Refusal>
    requires { at ≤ length s.now }
    ensures { result ≡ variance_end s.now at }
{
    if s.len() <= at {
        return Ok(20);
    }
    token::reading::byte_at(s, at, b'V')?;
    figures_end(s, at + 1)
}
