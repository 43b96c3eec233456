// Writing tokens into lent memory: each function puts one at an offset and returns the offset after it. Memory and offset are no
// struct: one that holds a `&mut` has to say in each contract that it still holds the same.
ghost use Rattle.std.specs.Prelude.{◌≡◌, [], ◌∷◌, ◌+◌, ◌*◌, ◌≤◌, ◌<◌, length};
ghost use Rattle.charset.specs.Bytes.{digit_byte, marker_byte, utf8, digits};
ghost use Rattle.charset.specs.Tokens.{tokens, last_code, last_punctuation};
ghost use Rattle.token.specs.Symbol.{any_symbol};
ghost use Rattle.token.specs.Wrote.{Wrote};
ghost use Rattle.writer.specs.Keys.{key_parts};

use charset::Charset;
use token::reading::{MARKERS, NUMBERS, SYMBOLS};

pub fn put_byte(out: &mut [u8], at: usize, b: u8) -> usize
    requires { at < length out.old }
    ensures { Wrote out.old out.new at result (b ∷ []) }
{
    out[at] = b;
    at + 1
}

// Bytes as they are.
pub fn put_bytes(out: &mut [u8], at: usize, s: &[u8]) -> usize
    requires { at + length s.now ≤ length out.old }
    ensures { Wrote out.old out.new at result s.now }
{
    let next = at + s.len();
    out[at..next].copy_from_slice(s);
    next
}

// The byte of a hexadecimal digit. `as`, here and in a character: what is left fits into a byte, and try_from would have an Err that
// nothing gives.
fn digit_byte(d: u16) -> u8
    requires { d < 16 }
    ensures { result ≡ digit_byte d }
{
    match d as u8 {
        decimal @ 0..=9 => b'0' + decimal,
        above => b'a' + (above - 10),
    }
}

// A hexadecimal digit.
pub fn put_digit(out: &mut [u8], at: usize, d: u16) -> usize
    requires { (at < length out.old) × (d < 16) }
    ensures { Wrote out.old out.new at result (digit_byte d ∷ []) }
{
    put_byte(out, at, digit_byte(d))
}

// A number in two digits, the first with the weight p.
pub fn put_two(out: &mut [u8], at: usize, p: u16, n: u16) -> usize
    requires { (at + 2 ≤ length out.old) × (0 < p) × (p ≤ 16) × (n < 16 * p) }
    ensures { Wrote out.old out.new at result ((digits (p ∷ []) 0 0).write n) }
{
    let next = put_digit(out, at, n / p);
    put_digit(out, next, n % p)
}

// A number in three digits, the first two with the weights p and q.
fn put_three(out: &mut [u8], at: usize, p: u16, q: u16, n: u16) -> usize
    requires { (at + 3 ≤ length out.old) × (0 < q) × (q ≤ 16) × (0 < p) × (p ≤ 16 * q) × (n < 16 * p) }
    ensures { Wrote out.old out.new at result ((digits (p ∷ q ∷ []) 0 0).write n) }
{
    let next = put_digit(out, at, n / p);
    put_two(out, next, q, n % p)
}

// The base of a symbol, and its fill and rotation as one number: zeros for null.
fn key_parts(code: u16) -> (u16, u16)
    requires { code ≤ last_code last_punctuation }
    ensures { result ≡ key_parts code }
{
    match code {
        0 => (0, 0),
        _ => (0x100 + (code - 1) / 96, (code - 1) % 96),
    }
}

// The key of a symbol, or of null.
fn put_key(out: &mut [u8], at: usize, code: u16) -> usize
    requires { (at + 6 ≤ length out.old) × (code ≤ last_code last_punctuation) }
    ensures { Wrote out.old out.new at result ((any_symbol Charset.Fsw).write code) }
{
    let (base, turn) = key_parts(code);
    let next = put_byte(out, at, b'S');
    let last = put_three(out, next, 256, 16, base);
    put_two(out, last, 16, turn)
}

// A character of four bytes. By arithmetic: to encode a `char`, one would have to be made first, by a test that cannot fail.
fn put_character(out: &mut [u8], at: usize, c: u32) -> usize
    requires { (at + 4 ≤ length out.old) × (c < 2097152) }
    ensures { Wrote out.old out.new at result (utf8 c) }
{
    let a = put_byte(out, at, (240 + c / 262144) as u8);
    let b = put_byte(out, a, (128 + c / 4096 % 64) as u8);
    let d = put_byte(out, b, (128 + c / 64 % 64) as u8);
    put_byte(out, d, (128 + c % 64) as u8)
}

// The byte of a marker, 0 to 4.
fn marker_byte(m: u16) -> u8
    ensures { result ≡ marker_byte m }
{
    match m {
        0 => b'A',
        1 => b'B',
        2 => b'L',
        3 => b'M',
        _ => b'R',
    }
}

// A marker, 0 to 4 for A, B, L, M, R.
pub fn put_marker(set: Charset, out: &mut [u8], at: usize, m: u16) -> usize
    requires { (at + (tokens set).marker_size ≤ length out.old) × (m ≤ 4) }
    ensures { Wrote out.old out.new at result (((tokens set).marker 0 4).write m) }
{
    match set {
        Charset::Fsw => put_byte(out, at, marker_byte(m)),
        Charset::Swu => put_character(out, at, MARKERS + u32::from(m)),
    }
}

// A symbol, or null, by its code.
pub fn put_symbol(set: Charset, out: &mut [u8], at: usize, code: u16) -> usize
    requires { (at + (tokens set).symbol_size ≤ length out.old) × (code ≤ last_code last_punctuation) }
    ensures { Wrote out.old out.new at result ((any_symbol set).write code) }
{
    match set {
        Charset::Fsw => put_key(out, at, code),
        Charset::Swu => put_character(out, at, SYMBOLS + u32::from(code)),
    }
}

// The first number of a coordinate.
pub fn put_number(set: Charset, out: &mut [u8], at: usize, n: u16) -> usize
    requires { (at + (tokens set).number_size ≤ length out.old) × (n < 1000) }
    ensures { Wrote out.old out.new at result ((tokens set).number.write n) }
{
    match set {
        Charset::Fsw => put_three(out, at, 100, 10, n),
        Charset::Swu => put_character(out, at, NUMBERS + u32::from(n)),
    }
}

// The second number of a coordinate, after x in FSW.
pub fn put_second(set: Charset, out: &mut [u8], at: usize, n: u16) -> usize
    requires { (at + (tokens set).second_size ≤ length out.old) × (n < 1000) }
    ensures { Wrote out.old out.new at result ((tokens set).second.write n) }
{
    match set {
        Charset::Fsw => {
            let next = put_byte(out, at, b'x');
            put_three(out, next, 100, 10, n)
        }
        Charset::Swu => put_character(out, at, NUMBERS + u32::from(n)),
    }
}
