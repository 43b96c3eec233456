// A quick look at the tokens of SWU. The least bytes allowed are taken off all
// four at once; the tests of what is left are of single bits, so that a compiler makes one test of them.
ghost use Rattle.std.specs.Prelude.{◌+◌, ◌≤◌, length};
ghost use Rattle.charset.specs.Bytes.{character};
ghost use Rattle.charset.specs.Tokens.{last_punctuation, swu};
ghost use Rattle.part.specs.Inner.{Word, Sure};

// The four bytes at an offset as one number, the first the lowest, which a machine takes at once: by u32::from_le_bytes a sign takes
// some 3 ns more to read.
fn word(s: &[u8], at: usize) -> u32
    requires { at + 4 ≤ length s.now }
    ensures { Word s.now at result }
{
    u32::from(s[at])
        + u32::from(s[at + 1]) * 0x100
        + u32::from(s[at + 2]) * 0x10000
        + u32::from(s[at + 3]) * 0x1000000
}

// The code of a symbol with a base of at most top: the first byte is f1, the others are 80 to bf. `as`, here and below, since what was
// tested fits into 16 bits.
pub fn symbol(s: &[u8], at: usize, top: u16) -> Option<u16>
    requires { (at + 4 ≤ length s.now) × (0x100 ≤ top) × (top ≤ last_punctuation) }
    ensures { Sure 4 (swu.symbol top) s.now at result }
{
    let d = word(s, at).wrapping_sub(0x808080f1);
    if d % 0x100 != 0 || d / 0x4000 % 4 != 0 || d / 0x400000 % 4 != 0 || d / 0x40000000 != 0 {
        return None;
    }
    let code = d / 0x100 % 64 * 4096 + d / 0x10000 % 64 * 64 + d / 0x1000000;
    let last = (u32::from(top) - 0xff) * 96;
    if code < 1 || last < code {
        return None;
    }
    Some(code as u16)
}

// A marker or a number as its distance from the marker A: the bytes are f0, 9d, a0 to a7, 80 to bf.
fn marker_or_number(s: &[u8], at: usize) -> Option<u16>
    requires { at + 4 ≤ length s.now }
    ensures { Sure 4 (character 0x1d800 0 511) s.now at result }
{
    let d = word(s, at).wrapping_sub(0x80a09df0);
    if d % 0x10000 != 0 || d / 0x80000 % 32 != 0 || d / 0x40000000 != 0 {
        return None;
    }
    Some((d / 0x10000 % 8 * 64 + d / 0x1000000) as u16)
}

// A number of a coordinate: 250 stands 12 after the marker A.
pub fn number(s: &[u8], at: usize) -> Option<u16>
    requires { at + 4 ≤ length s.now }
    ensures { Sure 4 swu.number s.now at result }
{
    let x = marker_or_number(s, at)?;
    if x < 12 {
        return None;
    }
    Some(x + 238)
}

// The marker of a signbox.
pub fn marker(s: &[u8], at: usize) -> Option<u16>
    requires { at + 4 ≤ length s.now }
    ensures { Sure 4 (swu.marker 1 4) s.now at result }
{
    let m = marker_or_number(s, at)?;
    if m < 1 || 4 < m {
        return None;
    }
    Some(m)
}
