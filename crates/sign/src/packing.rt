// A sign that lies in memory as a record.
ghost use Rattle.std.specs.Prelude.{◌≡◌};
ghost use Rattle.sign.specs.Inner.{sign_in, Counted};

use super::{Sign, offsets};
use charset::Charset;
use grammar::{Head, Symbols};

pub fn packed(set: Charset, head: Head, symbols: &Symbols) -> Sign
    requires { Counted head }
    ensures { result ≡ sign_in set head symbols.now }
{
    let mut prefix_offsets = [0u16; 32];
    let mut symbol_offsets = [0u16; 64];
    offsets::put_prefix_offsets(set, head.prefix_count, &mut prefix_offsets, 0);
    offsets::put_symbol_offsets(
        set,
        head.prefix_count,
        head.symbol_count,
        &mut symbol_offsets,
        0,
    );
    Sign {
        marker: head.marker,
        max_x: head.max_x,
        max_y: head.max_y,
        prefix_count: head.prefix_count,
        symbol_count: head.symbol_count,
        prefix: symbols.prefix,
        codes: symbols.codes,
        xs: symbols.xs,
        ys: symbols.ys,
        prefix_offsets,
        symbol_offsets,
    }
}
