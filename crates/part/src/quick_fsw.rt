// A quick look at the tokens of FSW. Digits go into a sum, in which the first counts as its byte, 0x30 more
// than its value, and a byte that is no hexadecimal digit counts 65536: the limits of the sum are then those of its digits.
ghost use Rattle.std.specs.Prelude.{◌≡◌, ◌+◌, ◌≤◌, length};
ghost use Rattle.charset.specs.Tokens.{last_punctuation, fsw};
ghost use Rattle.part.specs.Inner.{digit_or, base_in, turn_in, SureDigit, Sure};

use token::reading::{GREATEST_NUMBER, LEAST_NUMBER, marker_of};

// The value of a hexadecimal digit in lower case, and 65536 for any other byte. There is no branch: a match over the bytes takes
// twice as long to read a sign.
#[tactic(auto, unfolding(crate::specs::Inner::digit_or, charset::specs::Bytes::digit_of))]
fn hex(b: u8) -> u32
    ensures is { result ≡ digit_or b }
    ensures small { result ≤ 65536 }
{
    let t = u32::from(b).wrapping_sub(48);
    let u = u32::from(b).wrapping_sub(97);
    let mut v: u32 = 65536;
    if u < 6 {
        v = u + 10;
    }
    if t < 10 {
        v = t;
    }
    v
}

// The value of a decimal digit, and more than 9 for any other byte: by arithmetic, as in hex, so that a number needs no branch.
fn dec(b: u8) -> u32
    ensures { SureDigit b result }
{
    u32::from(b).wrapping_sub(48)
}

fn base_of(s: &[u8], at: usize) -> u32
    requires { at + 3 ≤ length s.now }
    ensures { result ≡ base_in s.now at }
{
    u32::from(s[at]) * 256 + hex(s[at + 1]) * 16 + hex(s[at + 2])
}

fn turn_of(s: &[u8], at: usize) -> u32
    requires { at + 2 ≤ length s.now }
    ensures { result ≡ turn_in s.now at }
{
    u32::from(s[at]) * 16 + hex(s[at + 1])
}

// The sum of the least number: 4800 more, for the first digit as its byte. By `as`, here and below: a const can't call From, and what
// was tested fits into 16 bits.
const LEAST_SUM: u32 = 4800 + LEAST_NUMBER as u32;
// How much more the sum of the greatest number is.
const MOST_ABOVE: u32 = (GREATEST_NUMBER - LEAST_NUMBER) as u32;

// A number. The limits of the sum leave no first byte but the digits 2 to 7.
pub fn number(s: &[u8], at: usize) -> Option<u16>
    requires { at + 3 ≤ length s.now }
    ensures { Sure 3 fsw.number s.now at result }
{
    let b = dec(s[at + 1]);
    let c = dec(s[at + 2]);
    if 9 < b || 9 < c {
        return None;
    }
    let sum = u32::from(s[at]) * 100 + b * 10 + c;
    let above = sum.wrapping_sub(LEAST_SUM);
    if MOST_ABOVE < above {
        return None;
    }
    Some(LEAST_NUMBER + above as u16)
}

// The code of a symbol key with a base of at most top.
pub fn symbol(s: &[u8], at: usize, top: u16) -> Option<u16>
    requires { (at + 6 ≤ length s.now) × (0x100 ≤ top) × (top ≤ last_punctuation) }
    ensures { Sure 6 (fsw.symbol top) s.now at result }
{
    if s[at] != b'S' {
        return None;
    }
    let base = base_of(s, at + 1).wrapping_sub(0x3100);
    if u32::from(top) - 0x100 < base {
        return None;
    }
    let turn = turn_of(s, at + 4).wrapping_sub(0x300);
    if 0x5f < turn {
        return None;
    }
    Some((base * 96 + turn + 1) as u16)
}

// The second number of a coordinate, after its x.
pub fn second(s: &[u8], at: usize) -> Option<u16>
    requires { at + 4 ≤ length s.now }
    ensures { Sure 4 fsw.second s.now at result }
{
    if s[at] != b'x' {
        return None;
    }
    number(s, at + 1)
}

// The marker of a signbox.
#[tactic(auto, unfolding(charset::specs::Bytes::marker_of))]
pub fn marker(s: &[u8], at: usize) -> Option<u16>
    requires { at + 1 ≤ length s.now }
    ensures { Sure 1 (fsw.marker 1 4) s.now at result }
{
    let m = marker_of(s[at]);
    if m < 1 || 4 < m {
        return None;
    }
    Some(m)
}
