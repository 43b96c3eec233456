// Finding the entries of a dictionary that meet the conditions of a query, in one walk over its lines.
ghost use Rattle.std.specs.Prelude.{◌≡◌, ◌/◌, ◌<◌, length};
ghost use Rattle.format.specs.Format.{keep};
ghost use Rattle.token.specs.Result.{outcome};
ghost use Rattle.narrowing.specs.Narrowing.{up_to};
ghost use Rattle.list.specs.Bits.{bit_of, EndsBefore};
ghost use Rattle.entries.specs.Judging.{meets_words, asks_nothing};
ghost use Rattle.entries.specs.Finding.{listed_verdict, found_in, Kept};

use crate::Counted;
use charset::Charset;
use lines::walk::line_end;
use list::bits::{add, has};
use matching::judging::Conditions;
use queryitem::words::PRESENT;
use token::refusal::Refusal;
use verdict::judging::meets_text;

// Whether there is no condition: every sign meets it.
#[tactic(auto, unfolding(crate::specs::Judging::asks_nothing))]
pub fn asks_nothing(conditions: Conditions) -> bool
    ensures { result ≡ asks_nothing conditions.entry.words.now }
{
    conditions.words[0] != PRESENT && conditions.words[1] == 0 && conditions.words[2] == 0
}

// Whether the line of entry e, if it is listed, meets the conditions; otherwise the line is not read.
fn judge_listed(
    set: Charset,
    line: &[u8],
    conditions: Conditions,
    listed: &[u8],
    e: usize,
) -> Result<bool, Refusal>
    requires { e / 8 < length listed.now }
    ensures { result ≡ listed_verdict set conditions.entry.words.now line.now listed.now e }
{
    if !has(listed, e) {
        return Ok(false);
    }
    meets_text(set, line, conditions).map_err(|_| Refusal::LineWrong(e))
}

// Reads the lines of the listed entries, each once and where it lies, puts those that meet the conditions into a set that has none,
// and tells how many do.
pub fn find(
    book: Counted,
    conditions: Conditions,
    listed: &[u8],
    bits: &mut [u8],
) -> Result<usize, Refusal>
    requires { (book.lines / 8 < length listed.now) × (book.lines / 8 < length bits.old) × EndsBefore 1 bits.old }
    ensures found { outcome result ≡ found_in book.entry.set book.entry.dict.now (keep (bit_of listed.now) (up_to book.entry.lines)) (meets_words book.entry.set book.entry.dict.now conditions.entry.words.now) }
    ensures kept { Kept result (bit_of listed.now) (meets_words book.entry.set book.entry.dict.now conditions.entry.words.now) book.entry.lines bits.old bits.new }
{
    let mut start = 0;
    let mut met = 0;
    for passed in 0..book.lines {
        let end = line_end(book.dict, start);
        let meets = judge_listed(
            book.set,
            &book.dict[start..end],
            conditions,
            listed,
            passed + 1,
        )?;
        if meets {
            add(bits, passed + 1);
            met += 1;
        }
        start = end + 1;
    }
    Ok(met)
}
