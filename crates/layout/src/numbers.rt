// The character set, refusals, and answers of a few numbers.
ghost use Rattle.std.specs.Prelude.{◌≡◌, ◌≤◌};
ghost use Rattle.token.specs.Result.{as_written};
ghost use Rattle.symbol.specs.Codes.{as_code};
ghost use Rattle.narrowing.specs.Narrowing.{as_narrowed};
ghost use Rattle.searching.specs.Searching.{as_searched};
ghost use Rattle.layout.specs.Layouts.{set_of, edition_of, told_numbers, refused_numbers, code_numbers, written_numbers};
ghost use Rattle.layout.specs.Dictionaries.{searched_numbers, narrowed_numbers};

use charset::Charset;
use narrowing::Narrowed;
use querygrammar::Edition;
use searching::Searched;
use token::refusal::Refusal;

// SWU for true and FSW for false.
pub fn set_of(swu: bool) -> Charset
    ensures { result ≡ set_of swu }
{
    if swu { Charset::Swu } else { Charset::Fsw }
}

// The first edition or the second, whose character set is named.
pub fn edition_of(second: bool, swu: bool) -> Edition
    ensures { result ≡ edition_of second swu }
{
    if second {
        Edition::Second(set_of(swu))
    } else {
        Edition::First
    }
}

// A refusal in the numbers of an answer: its number and its place, and zeros for the values. A usize becomes a u64 by `as`, here and
// below: std has no From for it.
pub fn refused<const N: usize>(e: Refusal) -> [u64; N]
    requires { 2 ≤ N }
    ensures { result ≡ refused_numbers N e }
{
    let mut numbers = [0u64; N];
    numbers[0] = u64::from(e.number());
    numbers[1] = e.place() as u64;
    numbers
}

// An answer whose value lies elsewhere, or that has none.
pub fn told<T>(r: &Result<T, Refusal>) -> [u64; 2]
    ensures { result ≡ told_numbers r.now }
{
    match r {
        Ok(_) => [0, 0],
        Err(e) => refused(*e),
    }
}

pub fn code_numbers(c: Result<u16, Refusal>) -> [u64; 3]
    ensures { result ≡ code_numbers (as_code c) }
{
    written_numbers(c.map(usize::from))
}

pub fn written_numbers(w: Result<usize, Refusal>) -> [u64; 3]
    ensures { result ≡ written_numbers (as_written w) }
{
    match w {
        Ok(length) => [0, 0, length as u64],
        Err(e) => refused(e),
    }
}

pub fn searched_numbers(r: Result<Searched, Refusal>) -> [u64; 4]
    ensures { result ≡ searched_numbers (as_searched r) }
{
    match r {
        Ok(found) => [0, 0, found.lines as u64, found.written as u64],
        Err(e) => refused(e),
    }
}

pub fn narrowed_numbers(r: Result<Narrowed, Refusal>) -> [u64; 4]
    ensures { result ≡ narrowed_numbers (as_narrowed r) }
{
    match r {
        Ok(left) => [0, 0, left.kept as u64, left.dropped as u64],
        Err(e) => refused(e),
    }
}
