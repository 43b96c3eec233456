// A fetched line as four numbers: where it lies.
ghost use Rattle.std.specs.Prelude.{◌≡◌, ◌≤◌, length};
ghost use Rattle.lines.specs.Lines.{lines};
ghost use Rattle.layout.specs.Dictionaries.{line_numbers};

use lines::walk::{line_end, line_start};

// Where line k of a dictionary lies, which is the first or the second.
pub fn line_numbers(which: u64, d: &[u8], k: usize) -> [u64; 4]
    requires { (1 ≤ k) × (k ≤ length (lines d.now)) }
    ensures { result ≡ line_numbers which d.now k }
{
    let start = line_start(d, k);
    let end = line_end(d, start);
    // `as`, as for every usize of an answer
    [0, which, start as u64, (end - start) as u64]
}
