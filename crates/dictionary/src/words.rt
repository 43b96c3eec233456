// Narrowing by the conditions of a query. A bit for each entry says whether it is listed, and another keeps what was judged: no entry
// is written before every listed line is judged.
ghost use Rattle.std.specs.Prelude.{◌≡◌};
ghost use Rattle.narrowing.specs.Narrowing.{as_narrowed};
ghost use Rattle.dictionary.specs.Inner.{narrowed_words, narrowed_text};

use crate::forms::Form;
use charset::Charset;
use entries::Counted;
use entries::finding::find;
use lines::checked::count_lines;
use list::bits::{BYTES, compact};
use matching::judging::Conditions;
use narrowing::Narrowed;
use querygrammar::Edition;
use queryitem::words::WORDS;
use token::refusal::Refusal;

fn narrow_by<F: Form>(
    set: Charset,
    dict: &[u8],
    list: &mut [u16],
    n: usize,
    conditions: Conditions,
) -> Result<Narrowed, Refusal>
    ensures { (as_narrowed result, list.new) ≡ narrowed_words F.valid set dict.now list.old n conditions.entry.words.now }
{
    let lines = count_lines(dict)?;
    let book = Counted { set, dict, lines };
    let mut listed = [0u8; BYTES];
    if !F::add(list, n, lines, &mut listed) {
        return Err(Refusal::ListWrong);
    }
    let mut bits = [0u8; BYTES];
    if let Err(met) = find(book, conditions, &listed, &mut bits) {
        return Err(F::refusal_of(book, list, n, &listed, met));
    }
    let kept = compact(list, n, &bits);
    let dropped = n - kept;
    Ok(Narrowed { kept, dropped })
}

// By a query as text.
pub fn narrow_as<F: Form>(
    set: Charset,
    dict: &[u8],
    list: &mut [u16],
    n: usize,
    edition: Edition,
    query: &[u8],
) -> Result<Narrowed, Refusal>
    ensures { (as_narrowed result, list.new) ≡ narrowed_text F.valid set dict.now list.old n (edition, query.now) }
{
    let mut words = [0u16; WORDS];
    query::words::read_into(edition, query, &mut words)?;
    let conditions = Conditions { words: &words };
    narrow_by::<F>(set, dict, list, n, conditions)
}
