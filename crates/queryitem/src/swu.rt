// Reading one item in SWU at an offset of a text, byte by byte.
ghost use Rattle.std.specs.Prelude.{◌≡◌, ◌+◌, ◌^◌, ◌≤◌, length};
ghost use Rattle.charset.specs.Tokens.{parts_of};
ghost use Rattle.queryitem.specs.Pieces.{past as pastMark, Marked, marked_numbers, marks_at, swu_range_at, swu_at};

use super::reading::{Numbers, key_numbers, null_numbers, range_numbers};
use token::refusal::Refusal;

// The base of a code.
fn base_of(code: u16) -> u16
    requires { (1 ≤ code) × (code ≤ 62592) }
    ensures { result ≡ (parts_of code).0 }
{
    0x100 + (code - 1) / 96
}

// The numbers of a symbol by its code, where any fill or any rotation will do or not.
fn marked_numbers(code: u16, fills: bool, rotations: bool) -> Numbers
    requires { (1 ≤ code) × (code ≤ 62592) }
    ensures { result ≡ marked_numbers code fills rotations }
{
    let turn = (code - 1) % 96;
    let fill = if fills { None } else { Some(turn / 16) };
    let rotation = if rotations { None } else { Some(turn % 16) };
    key_numbers(base_of(code), fill, rotation)
}

// Whether a mark stands at an offset.
fn stands(s: &[u8], at: usize, mark: u8) -> bool
    requires { at ≤ length s.now }
    ensures { Marked mark s.now at result }
{
    at < s.len() && s[at] == mark
}

// The offset after a mark that stands or not.
fn past(stands: bool, at: usize) -> usize
    requires { at + 1 ≤ 2 ^ 63 }
    ensures { result ≡ pastMark stands at }
{
    at + usize::from(stands)
}

// The marks after a symbol's character, which null has not.
fn marks_at(s: &[u8], at: usize, code: u16) -> Result<(Numbers, usize), Refusal>
    requires { (at ≤ length s.now) × (code ≤ 62592) }
    ensures { result ≡ marks_at code s.now at }
{
    if code == 0 {
        return Ok((null_numbers(), at));
    }
    let fills = stands(s, at, b'f');
    let next = past(fills, at);
    let rotations = stands(s, next, b'r');
    Ok((
        marked_numbers(code, fills, rotations),
        past(rotations, next),
    ))
}

// The R of a range and what follows it: two characters, of which the bases count.
fn swu_range_at(s: &[u8], at: usize) -> Result<(Numbers, usize), Refusal>
    requires { at + 64 ≤ 2 ^ 64 }
    ensures { result ≡ swu_range_at s.now at }
{
    token::reading::byte_at(s, at, b'R')?;
    let from = scalar::reading::symbol_at(s, at + 1, 1)?;
    let to = scalar::reading::symbol_at(s, at + 5, 1)?;
    Ok((range_numbers(base_of(from), base_of(to)), at + 9))
}

// An item whose symbols have codes from least on: 0, which is null, or 1.
pub fn swu_item_at(s: &[u8], at: usize, least: u16) -> Result<(Numbers, usize), Refusal>
    requires { (at ≤ length s.now) × (least ≤ 1) }
    ensures { result ≡ swu_at least s.now at }
{
    if s.len() <= at {
        return Err(Refusal::TextShort(s.len()));
    }
    if s[at] == b'R' {
        return swu_range_at(s, at);
    }
    let code = scalar::reading::symbol_at(s, at, least)?;
    marks_at(s, at + 4, code)
}
