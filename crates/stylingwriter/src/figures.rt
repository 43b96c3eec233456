// Numbers in decimal digits: each function puts one at an offset and returns the offset after it.
ghost use Rattle.std.specs.Prelude.{◌+◌, ◌≤◌, ◌<◌, length};
ghost use Rattle.token.specs.Wrote.{Wrote};
ghost use Rattle.stylinggrammar.specs.Styling.{figures, decimal};
ghost use Rattle.stylinggrammar.specs.Meaning.{whole_figures, decimal_of};
ghost use Rattle.stylingwriter.specs.Pieces.{cents_text};

use writer::tokens::{put_byte, put_digit, put_two};

// A number of 0 to 99 in one digit or two.
fn put_wholes(out: &mut [u8], at: usize, n: u16) -> usize
    requires { (at + 2 ≤ length out.old) × (n < 100) }
    ensures wrote { Wrote out.old out.new at result (figures.write (whole_figures n)) }
    ensures most { result ≤ at + 2 }
{
    if n < 10 {
        return put_digit(out, at, n);
    }
    put_two(out, at, 10, n)
}

// The point and the decimals of n hundredths, as few as there must be.
fn put_cents(out: &mut [u8], at: usize, n: u16) -> usize
    requires { (at + 3 ≤ length out.old) × (n < 100) }
    ensures wrote { Wrote out.old out.new at result (cents_text n) }
    ensures most { result ≤ at + 3 }
{
    if n == 0 {
        return at;
    }
    let last = n % 10;
    let point = put_byte(out, at, b'.');
    let next = put_digit(out, point, n / 10);
    let whole = last == 0;
    if whole {
        return next;
    }
    put_digit(out, next, last)
}

// A zoom of z hundredths.
pub fn put_zoom(out: &mut [u8], at: usize, z: u16) -> usize
    requires { (at + 5 ≤ length out.old) × (z < 10000) }
    ensures wrote { Wrote out.old out.new at result (decimal.write (decimal_of z)) }
    ensures most { result ≤ at + 5 }
{
    let next = put_wholes(out, at, z / 100);
    put_cents(out, next, z % 100)
}
