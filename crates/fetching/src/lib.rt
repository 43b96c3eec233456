// Fetching a line from two dictionaries by its number. No line is read: they may be of either character set, or no signs.
#![tactic(auto)]

ghost use Rattle.std.specs.Prelude.{◌≡◌};
ghost use Rattle.fetching.specs.Fetching.{fetching, fetched_line, fetched_place, refusal_as, as_refusal};

use lines::checked::count_lines;
use lines::walk::{count, is_ended, line};
use token::refusal::Refusal;

// Whether fetching is refused, and why: 12 for the first, then the second dictionary, 14 likewise, then 16.
pub fn fetch_refusal(first: &[u8], second: &[u8], number: usize) -> Result<(), Refusal>
    ensures { as_refusal result ≡ refusal_as (fetching first.now second.now number) }
{
    // 12 of the second comes before 14 of the first
    if !is_ended(first) || !is_ended(second) {
        return Err(Refusal::DictionaryUnended);
    }
    let firsts = count_lines(first)?;
    let seconds = count_lines(second)?;
    if number == 0 || firsts + seconds < number {
        return Err(Refusal::EntryAbsent);
    }
    Ok(())
}

// The line of this number, without its byte 10, as a part of the dictionary that holds it. Numbers start from 1 and run on
// from the first dictionary into the second. Refused: the empty part at the start of the first.
pub fn fetch<'a>(first: &'a [u8], second: &'a [u8], number: usize) -> &'a [u8]
    ensures bytes { result.now ≡ fetched_line first.now second.now (fetching first.now second.now number) }
    ensures place { result.ref_ptr ≡ fetched_place first.entry second.entry (fetching first.now second.now number) }
{
    if fetch_refusal(first, second, number).is_err() {
        return &first[0..0];
    }
    let firsts = count(first);
    if number <= firsts {
        return line(first, number);
    }
    line(second, number - firsts)
}
