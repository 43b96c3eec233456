// Searching by the conditions of a query. Every line is read and judged before an entry is written, each once: a bit for each entry, in
// memory of fixed size, keeps what was judged.
ghost use Rattle.std.specs.Prelude.{◌≡◌, true, ◌≤◌};
ghost use Rattle.entries.specs.Judging.{meets_words};
ghost use Rattle.searching.specs.Searching.{writing, found_of, searched_words, as_searched};

use crate::Searched;
use charset::Charset;
use entries::Counted;
use entries::finding::{asks_nothing, find};
use entries::reading::first_wrong;
use lines::checked::count_lines;
use list::bits::{ALL, BYTES, write_entries};
use list::numbering::number_entries;
use matching::judging::Conditions;
use token::refusal::Refusal;

// Searches by a query that every sign meets: no line is judged.
fn search_all(book: Counted, list: &mut [u16]) -> Result<Searched, Refusal>
    requires { book.lines ≤ 65535 }
    ensures { (as_searched result, list.new) ≡ writing book.entry.lines list.old (found_of book.entry.set book.entry.dict.now book.entry.lines (λ e. true)) }
{
    let n = book.lines;
    if let Some(wrong) = first_wrong(book.set, book.dict, n) {
        return Err(Refusal::LineWrong(wrong));
    }
    if list.len() < n {
        return Err(Refusal::RoomShort(n));
    }
    number_entries(list, n);
    Ok(Searched {
        lines: n,
        written: n,
    })
}

// Searches by any query.
fn search_met(book: Counted, list: &mut [u16], conditions: Conditions) -> Result<Searched, Refusal>
    requires { book.lines ≤ 65535 }
    ensures { (as_searched result, list.new) ≡ writing book.entry.lines list.old (found_of book.entry.set book.entry.dict.now book.entry.lines (meets_words book.entry.set book.entry.dict.now conditions.entry.words.now)) }
{
    let listed = [ALL; BYTES];
    let mut bits = [0u8; BYTES];
    let met = find(book, conditions, &listed, &mut bits)?;
    let short = list.len() < met;
    if short {
        return Err(Refusal::RoomShort(met));
    }
    write_entries(list, &bits, book.lines);
    Ok(Searched {
        lines: book.lines,
        written: met,
    })
}

pub fn search_by(
    set: Charset,
    dict: &[u8],
    list: &mut [u16],
    conditions: Conditions,
) -> Result<Searched, Refusal>
    ensures { (as_searched result, list.new) ≡ searched_words set dict.now list.old conditions.entry.words.now }
{
    let lines = count_lines(dict)?;
    let book = Counted { set, dict, lines };
    if asks_nothing(conditions) {
        return search_all(book, list);
    }
    search_met(book, list, conditions)
}
