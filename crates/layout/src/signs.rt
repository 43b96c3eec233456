// A sign as 325 numbers.
ghost use Rattle.std.specs.Prelude.{◌≡◌};
ghost use Rattle.layout.specs.Layouts.{sign_numbers};
ghost use Rattle.sign.specs.Inner.{sign_in, Laid};

use charset::Charset;
use grammar::{Head, Symbols};
use sign::copying::{put, put_counted};
use sign::offsets::{put_prefix_offsets, put_symbol_offsets};

// Lays a sign out that was read into memory. The zeros stay in the places that a sign has no symbols for. `as`: its counts are at most 32
// and 64.
pub fn put_sign(sign: &mut [u16; 325], set: Charset, h: Head, symbols: &Symbols)
    requires { Laid h symbols.now }
    ensures { sign.new ≡ sign_numbers (sign_in set h symbols.now) }
{
    let p = h.prefix_count;
    let n = h.symbol_count;
    let head = [h.marker, h.max_x, h.max_y, p as u16, n as u16];
    *sign = [0u16; 325];
    put(sign, 0, &head);
    put_counted(sign, 5, &symbols.prefix, p);
    put_counted(sign, 37, &symbols.codes, n);
    put_counted(sign, 101, &symbols.xs, n);
    put_counted(sign, 165, &symbols.ys, n);
    put_prefix_offsets(set, p, sign, 229);
    put_symbol_offsets(set, p, n, sign, 261);
}
