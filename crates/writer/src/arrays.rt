// Writing a sign that lies in memory. What writes text puts it at the start of the output, and needs room for all of it.
ghost use Rattle.std.specs.Prelude.{◌≡◌, [], ◌∷◌, ◌+◌, ◌*◌, ◌≤◌, length};
ghost use Rattle.charset.specs.Tokens.{tokens, last_code, last_location};
ghost use Rattle.format.specs.Format.{All};
ghost use Rattle.format.specs.Numeral.{Range};
ghost use Rattle.grammar.specs.Sign.{Valid, ValidSymbol, Number, point, sign_text};
ghost use Rattle.grammar.specs.Size.{spatial_size, prefix_size, sign_size};
ghost use Rattle.token.specs.Result.{done, as_written, written, output};
ghost use Rattle.token.specs.Wrote.{Wrote};
ghost use Rattle.writer.specs.Arrays.{upto, symbol_at, meaning_in, prefix_text, symbols_text};

use crate::tokens::{put_marker, put_number, put_second, put_symbol};
use charset::Charset;
use grammar::{Head, Symbols};
use token::refusal::Refusal;

// The bytes of a sign with p prefix symbols and n signbox symbols.
pub fn sign_size(set: Charset, p: usize, n: usize) -> usize
    requires { (p ≤ 32) × (n ≤ 64) }
    ensures { result ≡ sign_size set p n }
{
    match (set, p) {
        (Charset::Fsw, 0) => 8 + n * 13,
        (Charset::Fsw, _) => 1 + p * 6 + (8 + n * 13),
        (Charset::Swu, 0) => 12 + n * 12,
        (Charset::Swu, _) => 4 + p * 4 + (12 + n * 12),
    }
}

// A coordinate.
fn put_point(set: Charset, out: &mut [u8], at: usize, x: u16, y: u16) -> usize
    requires { (at + ((tokens set).number_size + (tokens set).second_size) ≤ length out.old) × (Number x × Number y) }
    ensures { Wrote out.old out.new at result ((point (tokens set)).write (x, y)) }
{
    let next = put_number(set, out, at, x);
    put_second(set, out, next, y)
}

// A and the symbols of a prefix, or nothing where there are none.
fn put_prefix(set: Charset, out: &mut [u8], at: usize, codes: &[u16]) -> usize
    requires { (at + prefix_size set (length codes.now) ≤ length out.old) × All (Range 0 (last_code last_location)) codes.now }
    ensures { Wrote out.old out.new at result (prefix_text set codes.now) }
{
    if codes.is_empty() {
        return at;
    }
    let mut next = put_marker(set, out, at, 0);
    for code in codes {
        next = put_symbol(set, out, next, *code);
    }
    next
}

// A symbol and its coordinate.
fn put_spatial(set: Charset, out: &mut [u8], at: usize, code: u16, x: u16, y: u16) -> usize
    requires { (at + spatial_size set ≤ length out.old) × ValidSymbol (record { code = code; x = x; y = y }) }
    ensures { Wrote out.old out.new at result (symbols_text set (record { code = code; x = x; y = y } ∷ [])) }
{
    let next = put_symbol(set, out, at, code);
    put_point(set, out, next, x, y)
}

// The first n symbols of a signbox, by their index: each lies in three arrays of fixed size.
fn put_symbols(set: Charset, out: &mut [u8], at: usize, symbols: &Symbols, n: usize) -> usize
    requires { (n ≤ 64) × (at + n * spatial_size set ≤ length out.old) × All ValidSymbol (upto (symbol_at symbols.now) n) }
    ensures { Wrote out.old out.new at result (symbols_text set (upto (symbol_at symbols.now) n)) }
{
    let mut next = at;
    for i in 0..n {
        next = put_spatial(
            set,
            out,
            next,
            symbols.codes[i],
            symbols.xs[i],
            symbols.ys[i],
        );
    }
    next
}

// Writes the sign that a head and the symbols in memory make, and returns the text's length: refused as 6.
pub fn write_sign(
    set: Charset,
    head: Head,
    symbols: &Symbols,
    out: &mut [u8],
) -> Result<usize, Refusal>
    requires { (head.prefix_count ≤ 32) × (head.symbol_count ≤ 64) × Valid (meaning_in head symbols.now) }
    ensures answer { as_written result ≡ written out.old (done (sign_text set (meaning_in head symbols.now))) }
    ensures memory { out.new ≡ output out.old (done (sign_text set (meaning_in head symbols.now))) }
{
    let size = sign_size(set, head.prefix_count, head.symbol_count);
    if out.len() < size {
        return Err(Refusal::RoomShort(size));
    }
    let a = put_prefix(set, out, 0, &symbols.prefix[..head.prefix_count]);
    let b = put_marker(set, out, a, head.marker);
    let c = put_point(set, out, b, head.max_x, head.max_y);
    Ok(put_symbols(set, out, c, symbols, head.symbol_count))
}
