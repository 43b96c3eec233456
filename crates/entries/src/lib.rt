// The entries of a dictionary: reading their lines, and finding those that meet a query.
#![tactic(auto)]

ghost use Rattle.std.specs.Prelude.{◌≡◌, length};
ghost use Rattle.lines.specs.Lines.{lines as lines_of};

use charset::Charset;

pub mod finding;
pub mod reading;

// A character set and a dictionary, with the number of its lines.
#[derive(Clone, Copy)]
pub struct Counted<'a> {
    pub set: Charset,
    pub dict: &'a [u8],
    pub lines: usize,
    pub ghost counted: { lines ≡ length (lines_of dict.now) },
}
