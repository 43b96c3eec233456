// Lines of `key=number`: each function writes at an offset and returns the offset after it.
ghost use Rattle.std.specs.Prelude.{◌+◌, ◌*◌, ◌≤◌, length};
ghost use Rattle.token.specs.Wrote.{Wrote};
ghost use Rattle.keylines.specs.Text.{decimal, key_line, entry_lines};

use itoa::Buffer;
use writer::tokens::{put_byte, put_bytes};

// A number in its decimal digits.
fn put_decimal(out: &mut [u8], at: usize, n: usize) -> usize
    requires { at + length (decimal n) ≤ length out.old }
    ensures { Wrote out.old out.new at result (decimal n) }
{
    let mut digits = Buffer::new();
    put_bytes(out, at, digits.format(n).as_bytes())
}

// The key stands with its `=`.
#[tactic(auto, using(crate::proofs::TextWrites::line_length))]
pub fn put_line(out: &mut [u8], at: usize, key: &[u8], n: usize) -> usize
    requires { at + length (key_line key.now n) ≤ length out.old }
    ensures { Wrote out.old out.new at result (key_line key.now n) }
{
    let a = put_bytes(out, at, key);
    let b = put_decimal(out, a, n);
    put_byte(out, b, b'\n')
}

// A line for each entry: 12 bytes are room for any.
pub fn put_entries(out: &mut [u8], at: usize, list: &[u16]) -> usize
    requires { at + 12 * length list.now ≤ length out.old }
    ensures { Wrote out.old out.new at result (entry_lines list.now) }
{
    let mut next = at;
    for entry in list {
        next = put_line(out, next, b"entry=", usize::from(*entry));
    }
    next
}
