// Reading the lines of a dictionary, each where it lies.
ghost use Rattle.std.specs.Prelude.{◌≡◌, true, ◌/◌, ◌≤◌, ◌<◌, length, take};
ghost use Rattle.reader.specs.Signs.{sign_of};
ghost use Rattle.lines.specs.Lines.{lines as lines_of};
ghost use Rattle.narrowing.specs.Narrowing.{entries_from, distinct, listed as isListed, some_entry};
ghost use Rattle.list.specs.Bits.{bit_of, EndsBefore, Marks};
ghost use Rattle.entries.specs.Entries.{is_done, first_wrong};
ghost use Rattle.entries.specs.Finding.{HasWrong};

use crate::Counted;
use charset::Charset;
use grammar::Symbols;
use lines::walk::line_end;
use list::bits::{BYTES, add, first_of, has};

// Whether the sign reader reads a line.
fn is_sign(set: Charset, line: &[u8]) -> bool
    ensures { result ≡ is_done (sign_of set line.now) }
{
    let mut symbols = Symbols::none();
    reader::arrays::read_into(set, line, &mut symbols).is_ok()
}

// The number of the first of n lines that the sign reader refuses.
pub fn first_wrong(set: Charset, dict: &[u8], n: usize) -> Option<usize>
    requires { n ≤ length (lines_of dict.now) }
    ensures { result ≡ some_entry (first_wrong set dict.now (entries_from 1 n)) }
{
    let mut start = 0;
    for passed in 0..n {
        let end = line_end(dict, start);
        if !is_sign(set, &dict[start..end]) {
            return Some(passed + 1);
        }
        start = end + 1;
    }
    None
}

// Reads the lines of the listed entries, each once and where it lies, and puts those that are no signs into a set that has none.
fn add_wrong(book: Counted, listed: &[u8], wrong: &mut [u8])
    requires { (book.lines / 8 < length listed.now) × (book.lines / 8 < length wrong.old) × EndsBefore 1 wrong.old }
    ensures { HasWrong book.entry.set book.entry.dict.now (bit_of listed.now) book.entry.lines wrong.old wrong.new }
{
    let mut at = 0;
    for passed in 0..book.lines {
        let end = line_end(book.dict, at);
        if has(listed, passed + 1) && !is_sign(book.set, &book.dict[at..end]) {
            add(wrong, passed + 1);
        }
        at = end + 1;
    }
}

// The first of the first n entries of a list, in list order, whose line the sign reader refuses. The set has these entries.
pub fn first_wrong_listed(book: Counted, list: &[u16], n: usize, listed: &[u8]) -> Option<usize>
    requires { (book.lines ≤ 65535) × (isListed (distinct book.lines) list.now n ≡ true) × Marks book.lines (take n list.now) listed.now }
    ensures { result ≡ some_entry (first_wrong book.entry.set book.entry.dict.now (take n list.now)) }
{
    let mut wrong = [0; BYTES];
    add_wrong(book, listed, &mut wrong);
    first_of(list, n, &wrong)
}
