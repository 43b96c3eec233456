// A quick look at a part of a sign behind one test of the length, once for both sets. What it finds is there; where it finds
// nothing, the careful reader says what is wrong and where. The steps are always inlined: as calls they make
// reading a sign a quarter slower.
ghost use Rattle.std.specs.Prelude.{◌+◌, ◌^◌, ◌≤◌, length};
ghost use Rattle.charset.specs.Tokens.{last_punctuation, tokens};
ghost use Rattle.grammar.specs.Sign.{lead, spatial, prefix_symbol};
ghost use Rattle.grammar.specs.Size.{lead_size, spatial_size};
ghost use Rattle.part.specs.Inner.{Sure, SureAfter, parts};

use super::reading::{Placed, lead_size, spatial_size};
use super::{quick_fsw, quick_swu};
use charset::Charset;
use token::reading::{LAST_LOCATION, LAST_WRITING, marker_size, number_size, symbol_size};

// The marker of a signbox.
#[inline(always)]
fn marker(set: Charset, s: &[u8], at: usize) -> Option<u16>
    requires { at + (tokens set).marker_size ≤ length s.now }
    ensures { Sure (tokens set).marker_size ((tokens set).marker 1 4) s.now at result }
{
    match set {
        Charset::Fsw => quick_fsw::marker(s, at),
        Charset::Swu => quick_swu::marker(s, at),
    }
}

// The code of a symbol with a base of at most top.
#[inline(always)]
fn symbol(set: Charset, s: &[u8], at: usize, top: u16) -> Option<u16>
    requires { (at + (tokens set).symbol_size ≤ length s.now) × (0x100 ≤ top) × (top ≤ last_punctuation) }
    ensures { Sure (tokens set).symbol_size ((tokens set).symbol top) s.now at result }
{
    match set {
        Charset::Fsw => quick_fsw::symbol(s, at, top),
        Charset::Swu => quick_swu::symbol(s, at, top),
    }
}

// The first number of a coordinate.
#[inline(always)]
fn number(set: Charset, s: &[u8], at: usize) -> Option<u16>
    requires { at + (tokens set).number_size ≤ length s.now }
    ensures { Sure (tokens set).number_size (tokens set).number s.now at result }
{
    match set {
        Charset::Fsw => quick_fsw::number(s, at),
        Charset::Swu => quick_swu::number(s, at),
    }
}

// The second number.
#[inline(always)]
fn second(set: Charset, s: &[u8], at: usize) -> Option<u16>
    requires { at + (tokens set).second_size ≤ length s.now }
    ensures { Sure (tokens set).second_size (tokens set).second s.now at result }
{
    match set {
        Charset::Fsw => quick_fsw::second(s, at),
        Charset::Swu => quick_swu::number(s, at),
    }
}

// The coordinate that follows a code or a marker.
#[inline(always)]
fn point_after(set: Charset, s: &[u8], at: usize, value: u16) -> Option<Placed>
    requires { at + ((tokens set).number_size + (tokens set).second_size) ≤ length s.now }
    ensures { SureAfter (tokens set) s.now at value result }
{
    let x = number(set, s, at)?;
    let y = second(set, s, at + number_size(set))?;
    Some(Placed { value, x, y })
}

// The marker and the maximum of a signbox.
pub fn lead_at(set: Charset, s: &[u8], at: usize) -> Option<Placed>
    requires { at + 64 ≤ 2 ^ 64 }
    ensures { Sure (lead_size set) (lead (tokens set)) s.now at (parts result) }
{
    if s.len() < at + lead_size(set) {
        return None;
    }
    let value = marker(set, s, at)?;
    point_after(set, s, at + marker_size(set), value)
}

// A spatial symbol: a writing symbol and its coordinate.
pub fn spatial_at(set: Charset, s: &[u8], at: usize) -> Option<Placed>
    requires { at + 64 ≤ 2 ^ 64 }
    ensures { Sure (spatial_size set) (spatial (tokens set)) s.now at (parts result) }
{
    if s.len() < at + spatial_size(set) {
        return None;
    }
    let value = symbol(set, s, at, LAST_WRITING)?;
    point_after(set, s, at + symbol_size(set), value)
}

// A prefix symbol other than null, by its code.
pub fn prefix_symbol(set: Charset, s: &[u8], at: usize) -> Option<u16>
    requires { at + 64 ≤ 2 ^ 64 }
    ensures { Sure (tokens set).symbol_size (prefix_symbol (tokens set)) s.now at result }
{
    if s.len() < at + symbol_size(set) {
        return None;
    }
    symbol(set, s, at, LAST_LOCATION)
}
