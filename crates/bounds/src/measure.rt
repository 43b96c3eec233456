// The groups of the symbols of a sign, by the size list.
ghost use Rattle.std.specs.Prelude.{◌≡◌, ◌<◌, ◌≤◌, not, position, length, IfSome};
ghost use Rattle.std.specs.List.{All as AllItems};
ghost use Rattle.format.specs.Format.{All};
ghost use Rattle.format.specs.Numeral.{Range};
ghost use Rattle.charset.specs.Tokens.{last_code, last_writing};
ghost use Rattle.grammar.specs.Sign.{ValidSymbol};
ghost use Rattle.token.specs.Result.{outcome};
ghost use Rattle.writer.specs.Arrays.{upto, symbol_at};
ghost use Rattle.bounds.specs.Boxes.{symbol_box, groups_of};
ghost use Rattle.bounds.specs.Sizes.{has_size, measured};

use crate::groups::{Box, Groups};
use grammar::Symbols;
use token::refusal::Refusal;

// Two bytes for each code.
const SIZES: usize = 125184;

// The box of one symbol.
fn symbol_box(code: u16, x: u16, y: u16, sizes: &[u8; SIZES]) -> Box
    requires { ValidSymbol (record { code = code; x = x; y = y }) }
    ensures { result ≡ symbol_box sizes.now (record { code = code; x = x; y = y }) }
{
    let at = 2 * (usize::from(code) - 1);
    let width = u16::from(sizes[at]);
    let height = u16::from(sizes[at + 1]);
    Box::new(x, y, width, height)
}

// Whether a symbol has a glyph.
fn has_size(code: u16, sizes: &[u8; SIZES]) -> bool
    requires { Range 1 (last_code last_writing) code }
    ensures { result ≡ has_size sizes.now code }
{
    let at = 2 * (usize::from(code) - 1);
    sizes[at] != 0 && sizes[at + 1] != 0
}

// The place of the first code without size.
fn first_unsized(codes: &[u16], sizes: &[u8; SIZES]) -> Option<usize>
    requires { AllItems (Range 1 (last_code last_writing)) codes.now }
    ensures place { result ≡ position (λ code. not (has_size sizes.now code)) codes.now }
    ensures within { IfSome result (λ at. at < length codes.now) }
{
    codes.iter().position(|code| !has_size(*code, sizes))
}

// The groups of n symbols, taken in one by one.
fn groups_of(symbols: &Symbols, n: usize, sizes: &[u8; SIZES]) -> Groups
    requires { (n ≤ 64) × All ValidSymbol (upto (symbol_at symbols.now) n) }
    ensures { result ≡ groups_of sizes.now (upto (symbol_at symbols.now) n) }
{
    let mut groups = Groups::none();
    for i in 0..n {
        let code = symbols.codes[i];
        let b = symbol_box(code, symbols.xs[i], symbols.ys[i], sizes);
        groups = groups.with_symbol(code, b);
    }
    groups
}

// The groups of n symbols: refused as 7, 9, then 8. Always inlined: behind a refusal's tag, groups would be written in other pieces than
// they are read.
#[inline(always)]
pub fn measure(symbols: &Symbols, n: usize, sizes: &[u8]) -> Result<Groups, Refusal>
    requires { (n ≤ 64) × All ValidSymbol (upto (symbol_at symbols.now) n) }
    ensures { outcome result ≡ measured sizes.now (upto (symbol_at symbols.now) n) }
{
    let Some(sizes) = sizes.as_array() else {
        return Err(Refusal::SizesLength);
    };
    if n == 0 {
        return Err(Refusal::NoSymbols);
    }
    if let Some(at) = first_unsized(&symbols.codes[..n], sizes) {
        return Err(Refusal::SymbolUnsized(at + 1));
    }
    Ok(groups_of(symbols, n, sizes))
}
