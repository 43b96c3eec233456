// The parts of a sign at an offset of a text. Each is first looked at quickly, as a whole; where that finds nothing, the
// careful reader says what is wrong and where.
ghost use Rattle.std.specs.Prelude.{◌≡◌, ◌+◌, ◌^◌, ◌≤◌};
ghost use Rattle.charset.specs.Tokens.{tokens};
ghost use Rattle.grammar.specs.Sign.{lead, spatial, prefix_symbol};
ghost use Rattle.grammar.specs.Size.{lead_size, spatial_size};
ghost use Rattle.token.specs.Token.{token_at};
ghost use Rattle.part.specs.Placed.{placed_at};
ghost use Rattle.part.specs.Inner.{point_after};

use super::quick;
use charset::Charset;
use token::reading::{LAST_LOCATION, LAST_WRITING};
use token::refusal::Refusal;

// A code or a marker with its coordinate.
#[derive(Clone, Copy)]
pub struct Placed {
    pub value: u16,
    pub x: u16,
    pub y: u16,
}

// The bytes of a signbox lead and of a spatial symbol.
pub fn lead_size(set: Charset) -> usize
    ensures { result ≡ lead_size set }
{
    match set {
        Charset::Fsw => 8,
        Charset::Swu => 12,
    }
}

pub fn spatial_size(set: Charset) -> usize
    ensures { result ≡ spatial_size set }
{
    match set {
        Charset::Fsw => 13,
        Charset::Swu => 12,
    }
}

// The coordinate that follows a code or a marker.
fn point_after(set: Charset, s: &[u8], at: usize, value: u16) -> Result<Placed, Refusal>
    requires { at + 128 ≤ 2 ^ 64 }
    ensures { result ≡ point_after set s.now at value }
{
    let x = token::reading::number_at(set, s, at)?;
    let size = token::reading::number_size(set);
    let y = token::reading::second_at(set, s, at + size)?;
    Ok(Placed { value, x, y })
}

// The marker and the maximum of a signbox, read with care.
fn lead_careful(set: Charset, s: &[u8], at: usize) -> Result<Placed, Refusal>
    requires { at + 256 ≤ 2 ^ 64 }
    ensures { result ≡ placed_at (lead (tokens set)) s.now at }
{
    let marker = token::reading::marker_at(set, s, at, 1, 4)?;
    let size = token::reading::marker_size(set);
    point_after(set, s, at + size, marker)
}

// A writing symbol and its coordinate, read with care: it is left out of the loop over the symbols. Symbols and markers differ in more
// than what a trait for both would save.
#[cold]
#[inline(never)]
fn spatial_careful(set: Charset, s: &[u8], at: usize) -> Result<Placed, Refusal>
    requires { at + 256 ≤ 2 ^ 64 }
    ensures { result ≡ placed_at (spatial (tokens set)) s.now at }
{
    let code = token::reading::symbol_at(set, s, at, LAST_WRITING)?;
    let size = token::reading::symbol_size(set);
    point_after(set, s, at + size, code)
}

// The marker and the maximum of a signbox.
pub fn lead_at(set: Charset, s: &[u8], at: usize) -> Result<Placed, Refusal>
    requires { at + 256 ≤ 2 ^ 64 }
    ensures { result ≡ placed_at (lead (tokens set)) s.now at }
{
    let Some(lead) = quick::lead_at(set, s, at) else {
        return lead_careful(set, s, at);
    };
    Ok(lead)
}

// A writing symbol and its coordinate.
pub fn spatial_at(set: Charset, s: &[u8], at: usize) -> Result<Placed, Refusal>
    requires { at + 256 ≤ 2 ^ 64 }
    ensures { result ≡ placed_at (spatial (tokens set)) s.now at }
{
    let Some(symbol) = quick::spatial_at(set, s, at) else {
        return spatial_careful(set, s, at);
    };
    Ok(symbol)
}

// A prefix symbol, by its code.
pub fn prefix_symbol_at(set: Charset, s: &[u8], at: usize) -> Result<u16, Refusal>
    requires { at + 256 ≤ 2 ^ 64 }
    ensures { result ≡ token_at (prefix_symbol (tokens set)) s.now at }
{
    let Some(code) = quick::prefix_symbol(set, s, at) else {
        return token::reading::symbol_or_null_at(set, s, at, LAST_LOCATION);
    };
    Ok(code)
}
