// The search program, from its whole input to its whole output (document 01, "The search program"), and the same in dictionary order.
#![tactic(auto)]

ghost use Rattle.std.specs.Prelude.{◌≡◌, ℕ, List, ◌++◌, ◌≤◌, ◌+◌, length, take, drop};
ghost use Rattle.token.specs.Refusal.{number_of, place_of};
ghost use Rattle.token.specs.Wrote.{Wrote};
ghost use Rattle.searching.specs.Searching.{as_searched};
ghost use Rattle.report.specs.Report.{query_in, dictionary_in, within, refusal_text, found_text, arranged_in, output_of, sorted_output_of, Part};
ghost use Rattle.report.specs.Inner.{Finds, Filled, Arranges, told_in};

use charset::Charset;
use keylines::line::{put_entries, put_line};
use lines::walk::{count, line_end};
use querygrammar::Edition;
use searching::Searched;
use sorting::sort;
use token::refusal::Refusal;

const PROGRAM_QUERY_BYTES: usize = 1024;

const PROGRAM_BYTES: usize = 49152;

const PROGRAM_LINES: usize = 1024;

// Whether a query and a dictionary are within the three sizes.
#[tactic(auto, unfolding(crate::specs::Report::within))]
fn is_within(query: &[u8], dict: &[u8]) -> bool
    ensures { result ≡ within query.now dict.now }
{
    query.len() <= PROGRAM_QUERY_BYTES
        && dict.len() <= PROGRAM_BYTES
        && count(dict) <= PROGRAM_LINES
}

// 38 bytes hold any number and place.
fn put_refusal(out: &mut [u8], e: Refusal) -> usize
    requires { 38 ≤ length out.old }
    ensures { Wrote out.old out.new 0 result (refusal_text (number_of e) (place_of e)) }
{
    let next = put_line(out, 0, b"answer=", usize::from(e.number()));
    put_line(out, next, b"place=", e.place())
}

// The line count, and the entries that were found.
fn put_found(out: &mut [u8], lines: usize, kept: &[u16]) -> usize
    requires { (lines ≤ 1024) × (length kept.now ≤ 1024) × (12320 ≤ length out.old) }
    ensures { Wrote out.old out.new 0 result (found_text lines kept.now) }
{
    let a = put_line(out, 0, b"answer=", 0);
    let b = put_line(out, a, b"entries=", lines);
    let c = put_line(out, b, b"kept=", kept.len());
    put_entries(out, c, kept)
}

// Searches within the sizes.
fn find(query: &[u8], dict: &[u8], list: &mut [u16]) -> Result<Searched, Refusal>
    requires { length list.old ≡ 1024 }
    ensures { Finds query.now dict.now list.old (as_searched result) list.new }
{
    let allowed = is_within(query, dict);
    if !allowed {
        return Err(Refusal::TooMany);
    }
    dictionary::search(Charset::Fsw, dict, list, Edition::First, query)
}

// The query where it lies in the input.
fn query_in(input: &[u8]) -> &[u8]
    ensures { result.now ≡ query_in input.now }
{
    let end = line_end(input, 0);
    &input[..end]
}

// And the dictionary.
fn dictionary_in(input: &[u8]) -> &[u8]
    ensures { result.now ≡ dictionary_in input.now }
{
    let end = line_end(input, 0);
    let start = if end < input.len() { end + 1 } else { end };
    &input[start..]
}

// Puts the first n entries of a list in dictionary order. A sort of what was found is never refused.
fn put_in_order(dict: &[u8], list: &mut [u16], n: usize)
    ensures { (entries : List ℕ) → n ≡ length entries → Filled dict.now list.old entries → take (length entries) list.new ≡ arranged_in dict.now entries }
{
    let mut spare = [0u16; 1024];
    let _ = sort(Charset::Fsw, dict, list, n, &mut spare);
}

// Answers a query line and the dictionary after it, and returns the length of the text. What was found stands at the start of a list,
// and is told in the order into which it is then put.
fn report_by<F: FnOnce(&[u8], &mut [u16], usize)>(
    input: &[u8],
    out: &mut [u8; 12320],
    arrange: F,
) -> usize
    ghost order: { List ℕ → List ℕ → List ℕ }
    requires callable { F.IsAlwaysCallable arrange }
    requires arranges { Arranges (λ dict list n after. F.post arrange dict list n tt after) order }
    ensures { Wrote out.old out.new 0 result (told_in order (query_in input.now) (dictionary_in input.now)) }
{
    let dict = dictionary_in(input);
    let mut list = [0u16; 1024];
    match find(query_in(input), dict, &mut list) {
        Ok(found) => {
            arrange(dict, &mut list, found.written);
            put_found(out, found.lines, &list[..found.written])
        }
        Err(e) => put_refusal(out, e),
    }
}

// Answers a query line and the dictionary after it, and returns the length of the text. 12,320 bytes hold any: 32 for the first
// three lines, and 12 for each entry.
pub fn report(input: &[u8], out: &mut [u8; 12320]) -> usize
    ensures room { Part result out.new }
    ensures answer { result ≡ length (output_of input.now) }
    ensures memory { out.new ≡ output_of input.now ++ drop (length (output_of input.now)) out.old }
{
    report_by(input, out, |_, _, _| ())
}

// The same with the entries in dictionary order (document 02, Q-12).
pub fn report_sorted(input: &[u8], out: &mut [u8; 12320]) -> usize
    ensures room { Part result out.new }
    ensures answer { result ≡ length (sorted_output_of input.now) }
    ensures memory { out.new ≡ sorted_output_of input.now ++ drop (length (sorted_output_of input.now)) out.old }
{
    report_by(input, out, put_in_order)
}
