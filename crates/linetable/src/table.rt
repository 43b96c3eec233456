// Where each line of a dictionary starts, in memory that the caller lends: the start of the first line of each block of 32 lines, and
// how far after it each line starts. Line e, counted from 1, is in block e / 32.
ghost use Rattle.std.specs.Prelude.{◌≡◌, ◌+◌, ◌-◌, ◌≤◌, length};
ghost use Rattle.lines.specs.Lines.{lines};
ghost use Rattle.linetable.specs.Table.{Clear, Safe, Table, next_line, lines_on, first_of, start_in};

use lines::walk::line_end;

// The places of the blocks' starts, and those of the lines.
pub const BLOCKS: usize = 2048;

pub const PLACES: usize = 65536;

// Kept for a line that starts so far after its block's first line, or farther. Among lines that are signs there is none.
// An Option of an offset would take twice the memory.
pub const FAR: u16 = 65535;

// A table of where the lines of a dictionary start, in which any entry may be looked up.
#[derive(Clone, Copy)]
pub struct Starts<'a> {
    pub dict: &'a [u8],
    pub bases: &'a [usize],
    pub offsets: &'a [u16],
    pub ghost safe: { Safe dict.now bases.now offsets.now },
}

impl Starts<'_> {
    // Where the line of entry e starts.
    pub fn of(&self, e: u16) -> usize
        ensures { result ≡ start_in self.now.dict.now self.now.bases.now self.now.offsets.now e }
    {
        let place = usize::from(e);
        let offset = self.offsets[place];
        let base = self.bases[place / 32];
        if offset < FAR {
            return base + usize::from(offset);
        }
        walk_to(self.dict, base, place)
    }
}

// Where the line after the one at a starts, or the end of the bytes.
fn next_line(dict: &[u8], a: usize) -> usize
    requires { a ≤ length dict.now }
    ensures { result ≡ next_line dict.now a }
{
    line_end(dict, a).saturating_add(1).min(dict.len())
}

// Where line e starts, by a walk over the lines before it in its block.
fn walk_to(dict: &[u8], base: usize, e: usize) -> usize
    requires { base ≤ length dict.now }
    ensures { result ≡ lines_on dict.now (e - first_of e) base }
{
    let mut at = base;
    let first = (e / 32 * 32).max(1);
    for _line in first..e {
        at = next_line(dict, at);
    }
    at
}

// Writes where each of n lines starts into a table that holds zeros. `as`: an offset is at most FAR.
pub fn place_lines<'a>(dict: &'a [u8], n: usize, bases: &'a mut [usize], offsets: &'a mut [u16])
    requires { (n ≤ 65535) × (n ≡ length (lines dict.now)) × Clear bases.old offsets.old }
    ensures { Table dict.now bases.new offsets.new }
{
    let mut base: usize = 0;
    let mut at: usize = 0;
    for before in 0..n {
        let e = before + 1;
        if e % 32 == 0 {
            base = at;
        }
        bases[e / 32] = base;
        offsets[e] = usize::from(FAR).min(at - base) as u16;
        at = line_end(dict, at) + 1;
    }
}
