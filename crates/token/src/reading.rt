// Reading one token at an offset of a text, digit by digit, so that the place of what is wrong is known. Text and offset are two
// parameters: a struct of both would be taken apart and made again at every part. The character set is a value, which C gives, so that
// a match tells the tokens of the two apart and no type parameter.
ghost use Rattle.std.specs.Prelude.{◌≡◌, [], ◌∷◌, ◌+◌, ◌^◌, ◌≤◌};
ghost use Rattle.charset.specs.Bytes.{byte, marker_of, marker_byte, scalar_of, character};
ghost use Rattle.charset.proofs.Units.{letter_strict};
ghost use Rattle.charset.specs.Tokens.{last_punctuation, key, null, null_or_key, tokens};
ghost use Rattle.token.specs.Token.{token_at};
ghost use Rattle.token.specs.Ends.{left_over};

use super::numerals::{Digit, Hexadecimal, digit_at, three_at, two_at};
use super::refusal::Refusal;
use charset::Charset;

// The last base of writing symbols, of location symbols and of punctuation: each class takes in those before it. They are numbers and
// no enum, since any last base between them may be asked for.
pub const LAST_WRITING: u16 = 0x37e;

pub const LAST_LOCATION: u16 = 0x386;

pub const LAST_PUNCTUATION: u16 = 0x38b;

// The numbers of a coordinate.
pub const LEAST_NUMBER: u16 = 250;

pub const GREATEST_NUMBER: u16 = 749;

// The code points that markers, numbers and symbols are counted from in SWU. `as`, since a const can't call From.
pub const MARKERS: u32 = 0x1d800;

pub const NUMBERS: u32 = 0x1d80c - LEAST_NUMBER as u32;

pub const SYMBOLS: u32 = 0x40000;

// The byte b.
pub fn byte_at(s: &[u8], at: usize, b: u8) -> Result<u16, Refusal>
    ensures { result ≡ token_at (byte b) s.now at }
{
    if s.len() <= at {
        return Err(Refusal::TextShort(s.len()));
    }
    if s[at] != b {
        return Err(Refusal::TextWrong(at));
    }
    Ok(u16::from(b))
}

// What follows the S of a symbol key with a base of at most top, as its code.
fn key_at(s: &[u8], at: usize, top: u16) -> Result<u16, Refusal>
    requires { (at + 32 ≤ 2 ^ 64) × (0x100 ≤ top) × (top ≤ last_punctuation) }
    ensures { result ≡ token_at (key top) s.now at }
{
    let b = three_at::<Hexadecimal>(s, at, 256, 16, 0x100, top)?;
    let t = two_at::<Hexadecimal>(s, at + 3, 16, 0, 0x5f)?;
    Ok((b - 0x100) * 96 + t + 1)
}

// What follows the S of the null symbol.
pub fn null_at(s: &[u8], at: usize) -> Result<u16, Refusal>
    requires { at + 32 ≤ 2 ^ 64 }
    ensures { result ≡ token_at null s.now at }
{
    three_at::<Hexadecimal>(s, at, 256, 16, 0, 0)?;
    two_at::<Hexadecimal>(s, at + 3, 16, 0, 0)?;
    Ok(0)
}

// What follows the S of the null symbol or of a symbol key with a base of at most top.
fn null_or_key_at(s: &[u8], at: usize, top: u16) -> Result<u16, Refusal>
    requires { (at + 32 ≤ 2 ^ 64) × (0x100 ≤ top) × (top ≤ last_punctuation) }
    ensures { result ≡ token_at (null_or_key top) s.now at }
{
    let zero = null_at(s, at);
    match zero {
        Err(refusal) if refusal.is_wrong_at(at) => key_at(s, at, top),
        _ => zero,
    }
}

// The markers A, B, L, M, R are 0 to 4, and any other byte is 5. The tests are moves without a branch, since no processor foresees
// which marker it is.
pub fn marker_of(b: u8) -> u16
    ensures { result ≡ marker_of b }
{
    let mut m: u16 = 5;
    if b == b'R' {
        m = 4;
    }
    if b == b'M' {
        m = 3;
    }
    if b == b'L' {
        m = 2;
    }
    if b == b'B' {
        m = 1;
    }
    if b == b'A' {
        m = 0;
    }
    m
}

// A marker in FSW, as a digit.
#[derive(Clone, Copy)]
pub struct Letter;

impl Digit for Letter {
    ghost top = { 4 };

    ghost value = { marker_of };

    ghost byte = { marker_byte };

    fn value_of(b: u8) -> u16 {
        marker_of(b)
    }

    ghost strict = { letter_strict };
}

// The code point of four bytes of UTF-8. What bytes say that are not well-formed lies outside every range that is
// asked for.
#[tactic(auto, unfolding(charset::specs::Bytes::scalar_of))]
fn scalar(a: u8, b: u8, c: u8, d: u8) -> u32
    ensures { result ≡ scalar_of (a ∷ b ∷ c ∷ d ∷ []) }
{
    if a / 8 != 30 || b / 64 != 2 || c / 64 != 2 || d / 64 != 2 {
        return 0;
    }
    u32::from(a) % 8 * 262144
        + u32::from(b) % 64 * 4096
        + u32::from(c) % 64 * 64
        + u32::from(d) % 64
}

// One character of four bytes, as its distance lo to hi from a code point. `as`: the distance is at most hi, and by From the proof of
// the two limits does not close.
fn character_at(s: &[u8], at: usize, from: u32, lo: u16, hi: u16) -> Result<u16, Refusal>
    requires { (at + 8 ≤ 2 ^ 64) × (from ≤ 0x40000) }
    ensures { result ≡ token_at (character from lo hi) s.now at }
{
    if s.len() < at + 4 {
        return Err(Refusal::TextShort(s.len()));
    }
    let c = scalar(s[at], s[at + 1], s[at + 2], s[at + 3]);
    if c < from + lo as u32 || from + (hi as u32) < c {
        return Err(Refusal::TextWrong(at));
    }
    Ok((c - from) as u16)
}

// A symbol in FSW with a base of at most top. With null it is another function, here and below, as it is another format of the grammar.
fn fsw_symbol_at(s: &[u8], at: usize, top: u16) -> Result<u16, Refusal>
    requires { (at + 64 ≤ 2 ^ 64) × (0x100 ≤ top) × (top ≤ last_punctuation) }
    ensures { result ≡ token_at ((tokens Charset.Fsw).symbol top) s.now at }
{
    byte_at(s, at, b'S')?;
    key_at(s, at + 1, top)
}

// The same, or the null symbol.
fn fsw_symbol_or_null_at(s: &[u8], at: usize, top: u16) -> Result<u16, Refusal>
    requires { (at + 64 ≤ 2 ^ 64) × (0x100 ≤ top) × (top ≤ last_punctuation) }
    ensures { result ≡ token_at ((tokens Charset.Fsw).symbol_or_null top) s.now at }
{
    byte_at(s, at, b'S')?;
    null_or_key_at(s, at + 1, top)
}

// A number of a coordinate in FSW: a wrong one is told at its first byte.
fn fsw_number_at(s: &[u8], at: usize) -> Result<u16, Refusal>
    requires { at + 16 ≤ 2 ^ 64 }
    ensures { result ≡ token_at (tokens Charset.Fsw).number s.now at }
{
    let number = three_at::<Hexadecimal>(s, at, 100, 10, LEAST_NUMBER, GREATEST_NUMBER);
    let Err(refusal) = number else {
        return number;
    };
    match refusal {
        Refusal::TextWrong(_) => Err(Refusal::TextWrong(at)),
        _ => number,
    }
}

// The second number of a coordinate in FSW, after its x. It is read by the function that reads the first, which the compiler
// then leaves out of the loop over the symbols.
fn fsw_second_at(s: &[u8], at: usize) -> Result<u16, Refusal>
    requires { at + 64 ≤ 2 ^ 64 }
    ensures { result ≡ token_at (tokens Charset.Fsw).second s.now at }
{
    byte_at(s, at, b'x')?;
    number_at(Charset::Fsw, s, at + 1)
}

// A marker of lo to hi.
pub fn marker_at(set: Charset, s: &[u8], at: usize, lo: u16, hi: u16) -> Result<u16, Refusal>
    requires { (at + 64 ≤ 2 ^ 64) × (hi ≤ 4) }
    ensures { result ≡ token_at ((tokens set).marker lo hi) s.now at }
{
    match set {
        Charset::Fsw => digit_at::<Letter>(s, at, lo, hi),
        Charset::Swu => character_at(s, at, MARKERS, lo, hi),
    }
}

// A symbol with a base of at most top.
pub fn symbol_at(set: Charset, s: &[u8], at: usize, top: u16) -> Result<u16, Refusal>
    requires { (at + 64 ≤ 2 ^ 64) × (0x100 ≤ top) × (top ≤ last_punctuation) }
    ensures { result ≡ token_at ((tokens set).symbol top) s.now at }
{
    match set {
        Charset::Fsw => fsw_symbol_at(s, at, top),
        Charset::Swu => character_at(s, at, SYMBOLS, 1, (top - 0xff) * 96),
    }
}

// The same, or the null symbol.
pub fn symbol_or_null_at(set: Charset, s: &[u8], at: usize, top: u16) -> Result<u16, Refusal>
    requires { (at + 64 ≤ 2 ^ 64) × (0x100 ≤ top) × (top ≤ last_punctuation) }
    ensures { result ≡ token_at ((tokens set).symbol_or_null top) s.now at }
{
    match set {
        Charset::Fsw => fsw_symbol_or_null_at(s, at, top),
        Charset::Swu => character_at(s, at, SYMBOLS, 0, (top - 0xff) * 96),
    }
}

// The first number of a coordinate.
pub fn number_at(set: Charset, s: &[u8], at: usize) -> Result<u16, Refusal>
    requires { at + 32 ≤ 2 ^ 64 }
    ensures { result ≡ token_at (tokens set).number s.now at }
{
    match set {
        Charset::Fsw => fsw_number_at(s, at),
        Charset::Swu => character_at(s, at, NUMBERS, LEAST_NUMBER, GREATEST_NUMBER),
    }
}

// The second number of a coordinate.
pub fn second_at(set: Charset, s: &[u8], at: usize) -> Result<u16, Refusal>
    requires { at + 64 ≤ 2 ^ 64 }
    ensures { result ≡ token_at (tokens set).second s.now at }
{
    match set {
        Charset::Fsw => fsw_second_at(s, at),
        Charset::Swu => character_at(s, at, NUMBERS, LEAST_NUMBER, GREATEST_NUMBER),
    }
}

// The bytes of each token, and of a unit.
pub fn marker_size(set: Charset) -> usize
    ensures { result ≡ (tokens set).marker_size }
{
    match set {
        Charset::Fsw => 1,
        Charset::Swu => 4,
    }
}

pub fn symbol_size(set: Charset) -> usize
    ensures { result ≡ (tokens set).symbol_size }
{
    match set {
        Charset::Fsw => 6,
        Charset::Swu => 4,
    }
}

pub fn number_size(set: Charset) -> usize
    ensures { result ≡ (tokens set).number_size }
{
    match set {
        Charset::Fsw => 3,
        Charset::Swu => 4,
    }
}

fn unit(set: Charset) -> usize
    ensures { result ≡ (tokens set).unit }
{
    match set {
        Charset::Fsw => 1,
        Charset::Swu => 4,
    }
}

// The end of a text of so many bytes, where nothing may follow: where less than a unit is left it is short, and where more is, wrong.
pub fn left_over(set: Charset, size: usize, at: usize) -> Result<(), Refusal>
    requires { at ≤ size }
    ensures { result ≡ left_over set size at }
{
    if at == size {
        return Ok(());
    }
    if size - at < unit(set) {
        return Err(Refusal::TextShort(size));
    }
    Err(Refusal::TextWrong(at))
}
