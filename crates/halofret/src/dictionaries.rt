// Dictionaries: searching one into a list of entry numbers, narrowing and sorting the list, and finding a line in two of them.
ghost use Rattle.std.specs.Prelude.{◌≡◌};
ghost use Rattle.token.specs.Result.{output};
ghost use Rattle.dictionary.specs.Search.{found, searched};
ghost use Rattle.dictionary.specs.Narrowing.{narrowed, narrowed_sorted};
ghost use Rattle.books.specs.Sorting.{list_after, spare_after};
ghost use Rattle.sorting.specs.Sorting.{sorted, sorted_as};
ghost use Rattle.fetching.specs.Fetching.{fetching};
ghost use Rattle.layout.specs.Layouts.{set_of, edition_of};
ghost use Rattle.layout.specs.Dictionaries.{searched_numbers, narrowed_numbers, sorted_numbers, fetched_numbers};

use layout::fetched::line_numbers;
use layout::numbers::{edition_of, narrowed_numbers, refused, searched_numbers, set_of, told};
use lines::walk::count;

// Writes the entries that meet the query at the start of the list, rising.
#[unsafe(no_mangle)]
pub extern "C" fn halofret_search(
    swu: bool,
    dict: &[u8],
    list: &mut [u16],
    second: bool,
    query_swu: bool,
    query: &[u8],
    answer: &mut [u64; 4],
)
    ensures answer { answer.new ≡ searched_numbers (searched (set_of swu) dict.now list.old (edition_of second query_swu, query.now)) }
    ensures memory { list.new ≡ output list.old (found (set_of swu) dict.now (edition_of second query_swu, query.now)) }
{
    let edition = edition_of(second, query_swu);
    *answer = searched_numbers(dictionary::search(set_of(swu), dict, list, edition, query));
}

// Of the first n entries of the list, keeps those that meet the query in front, with zeros in the places after them up to n.
#[unsafe(no_mangle)]
pub extern "C" fn halofret_narrow(
    swu: bool,
    dict: &[u8],
    list: &mut [u16],
    n: usize,
    second: bool,
    query_swu: bool,
    query: &[u8],
    answer: &mut [u64; 4],
)
    ensures answer { answer.new ≡ narrowed_numbers (narrowed (set_of swu) dict.now list.old n (edition_of second query_swu, query.now)).0 }
    ensures memory { list.new ≡ (narrowed (set_of swu) dict.now list.old n (edition_of second query_swu, query.now)).1 }
{
    let edition = edition_of(second, query_swu);
    *answer = narrowed_numbers(dictionary::narrow(set_of(swu), dict, list, n, edition, query));
}

// As halofret_narrow, for a list in any order, which it keeps.
#[unsafe(no_mangle)]
pub extern "C" fn halofret_narrow_sorted(
    swu: bool,
    dict: &[u8],
    list: &mut [u16],
    n: usize,
    second: bool,
    query_swu: bool,
    query: &[u8],
    answer: &mut [u64; 4],
)
    ensures answer { answer.new ≡ narrowed_numbers (narrowed_sorted (set_of swu) dict.now list.old n (edition_of second query_swu, query.now)).0 }
    ensures memory { list.new ≡ (narrowed_sorted (set_of swu) dict.now list.old n (edition_of second query_swu, query.now)).1 }
{
    let edition = edition_of(second, query_swu);
    *answer = narrowed_numbers(dictionary::narrow_sorted(
        set_of(swu),
        dict,
        list,
        n,
        edition,
        query,
    ));
}

// Rearranges the first n entries of the list by the temporal prefixes of their signs, with a second list of at least n places, whose
// first n then hold zeros.
#[unsafe(no_mangle)]
pub extern "C" fn halofret_sort(
    swu: bool,
    dict: &[u8],
    list: &mut [u16],
    n: usize,
    spare: &mut [u16],
    answer: &mut [u64; 2],
)
    ensures answer { answer.new ≡ sorted_numbers (sorted_as (sorted (set_of swu) dict.now list.old n spare.old)) }
    ensures memory { list.new ≡ list_after list.old n (sorted (set_of swu) dict.now list.old n spare.old) }
    ensures second { spare.new ≡ spare_after spare.old n (sorted (set_of swu) dict.now list.old n spare.old) }
{
    *answer = told(&sorting::sort(set_of(swu), dict, list, n, spare));
}

// Where the line of this number lies: 0 for the first dictionary and 1 for the second, its start there and its length,
// without its byte 10. Numbers start from 1 and run on from the first into the second. Refused: its number, and zeros.
#[unsafe(no_mangle)]
pub extern "C" fn halofret_fetch(first: &[u8], second: &[u8], number: usize, answer: &mut [u64; 4])
    ensures { answer.new ≡ fetched_numbers first.now second.now (fetching first.now second.now number) }
{
    if let Err(e) = fetching::fetch_refusal(first, second, number) {
        *answer = refused(e);
        return;
    }
    let firsts = count(first);
    if number <= firsts {
        *answer = line_numbers(0, first, number);
    } else {
        *answer = line_numbers(1, second, number - firsts);
    }
}
