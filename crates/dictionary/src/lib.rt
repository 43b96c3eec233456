// Dictionaries: searching one into a list of entry numbers, and narrowing the list.
#![tactic(auto)]

ghost use Rattle.std.specs.Prelude.{◌≡◌};
ghost use Rattle.token.specs.Result.{output};
ghost use Rattle.narrowing.specs.Narrowing.{as_narrowed};
ghost use Rattle.searching.specs.Searching.{as_searched};
ghost use Rattle.dictionary.specs.Search.{found, searched};
ghost use Rattle.dictionary.specs.Narrowing.{narrowed, narrowed_sorted};

use charset::Charset;
use matching::judging::Conditions;
use narrowing::Narrowed;
use querygrammar::Edition;
use queryitem::words::WORDS;
use searching::Searched;
use searching::words::search_by;
use token::refusal::Refusal;

mod forms;
mod words;

// Writes the entries that meet the query at the start of the list, rising: refused as the query is, then as 12, 14, 13, then as 6
// with the room needed.
pub fn search(
    set: Charset,
    dict: &[u8],
    list: &mut [u16],
    edition: Edition,
    query: &[u8],
) -> Result<Searched, Refusal>
    ensures answer { as_searched result ≡ searched set dict.now list.old (edition, query.now) }
    ensures memory { list.new ≡ output list.old (found set dict.now (edition, query.now)) }
{
    let mut words = [0u16; WORDS];
    query::words::read_into(edition, query, &mut words)?;
    let conditions = Conditions { words: &words };
    search_by(set, dict, list, conditions)
}

// Of the first n entries of the list, keeps those that meet the query in front, with zeros in the places after them up to n:
// refused as the query is, then as 12, 14, 11, 13.
pub fn narrow(
    set: Charset,
    dict: &[u8],
    list: &mut [u16],
    n: usize,
    edition: Edition,
    query: &[u8],
) -> Result<Narrowed, Refusal>
    ensures { (as_narrowed result, list.new) ≡ narrowed set dict.now list.old n (edition, query.now) }
{
    words::narrow_as::<forms::Rising>(set, dict, list, n, edition, query)
}

// As `narrow`, for a list in any order, which it keeps: refused as the query is, then as 12, 14, 11 for an entry that is absent or
// listed twice, then as 13 with the first bad line in list order.
pub fn narrow_sorted(
    set: Charset,
    dict: &[u8],
    list: &mut [u16],
    n: usize,
    edition: Edition,
    query: &[u8],
) -> Result<Narrowed, Refusal>
    ensures { (as_narrowed result, list.new) ≡ narrowed_sorted set dict.now list.old n (edition, query.now) }
{
    words::narrow_as::<forms::InAnyOrder>(set, dict, list, n, edition, query)
}
