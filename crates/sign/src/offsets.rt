// Where the symbols of a sign stand in its text. Tokens have fixed sizes, so the counts give every offset, and a reader that does
// not hand offsets out need not keep them.
ghost use Rattle.std.specs.Prelude.{◌≡◌, ◌+◌, ◌*◌, ◌≤◌, length, nat_lt};
ghost use Rattle.std.proofs.Math.Seq.{paste};
ghost use Rattle.format.specs.Format.{choose};
ghost use Rattle.grammar.specs.Offsets.{steps, prefix_offsets, symbol_offsets};
ghost use Rattle.token.specs.Padded.{padded, zeros};
ghost use Rattle.sign.specs.Inner.{Cleared};

use charset::Charset;

// What stands in place i of the offsets of n symbols: 0 after them. The highest bit of i - n tells whether i is less; there is no
// branch, so that the compiler takes many places at a time.
fn step(first: u16, size: u16, n: u16, i: u16) -> u16
    requires { (n ≤ 64) × (i ≤ 64) × (first + 64 * size ≤ 65535) }
    ensures { result ≡ choose (nat_lt i n) (first + i * size) 0 }
{
    let used = i.wrapping_sub(n) >> 15;
    (first + i * size) * used
}

// Puts the offsets of n symbols into places, with zeros after them: the first stands at an offset, and each so many bytes after the
// one before. The numbers here are small, so `as` takes them into 16 bits: try_from would have an Err that nothing gives.
fn put_steps(places: &mut [u16], first: u16, size: u16, n: u16)
    requires { (length places.old ≤ 64) × (n ≤ 64) × (first + 64 * size ≤ 65535) }
    ensures { places.new ≡ padded (length places.old) (steps first size n) }
{
    for i in 0..places.len() {
        places[i] = step(first, size, n, i as u16);
    }
}

// The same where the places hold zeros: up to eight symbols need the first eight alone, and few signs have more of either kind.
fn put_offsets(places: &mut [u16], first: u16, size: u16, n: u16)
    requires { (places.old ≡ zeros (length places.old)) × (8 ≤ length places.old) × (length places.old ≤ 64) × (n ≤ 64) × (first + 72 * size ≤ 65535) }
    ensures { places.new ≡ padded (length places.old) (steps first size n) }
{
    put_steps(&mut places[..8], first, size, n);
    if 8 < n {
        put_steps(&mut places[8..], first + 8 * size, size, n - 8);
    }
}

// Puts the offsets of p prefix symbols into the 32 places from `at` on, which hold zeros.
pub fn put_prefix_offsets(set: Charset, p: usize, to: &mut [u16], at: usize)
    requires { (p ≤ 32) × Cleared to.old at 32 }
    ensures { to.new ≡ paste to.old at (padded 32 (prefix_offsets set p)) 32 }
{
    let first = token::reading::marker_size(set);
    let size = token::reading::symbol_size(set);
    put_offsets(&mut to[at..at + 32], first as u16, size as u16, p as u16);
}

// Puts the offsets of n signbox symbols, after p prefix symbols, into the 64 places from `at` on, which hold zeros.
pub fn put_symbol_offsets(set: Charset, p: usize, n: usize, to: &mut [u16], at: usize)
    requires { (p ≤ 32) × (n ≤ 64) × Cleared to.old at 64 }
    ensures { to.new ≡ paste to.old at (padded 64 (symbol_offsets set p n)) 64 }
{
    let first = writer::arrays::sign_size(set, p, 0);
    let size = part::reading::spatial_size(set);
    put_offsets(&mut to[at..at + 64], first as u16, size as u16, n as u16);
}
