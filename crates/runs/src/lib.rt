// A whole run of narrowing calls as one function, so that demand 3 can be read on code that runs.
#![tactic(auto)]

ghost use Rattle.std.specs.Prelude.{◌≡◌, ◌+◌, ◌≤◌, Ok, map};
ghost use Rattle.lines.specs.Lines.{lines};
ghost use Rattle.narrowing.specs.Narrowing.{as_narrowed};
ghost use Rattle.narrowing.specs.Run.{next_count, run, total};
ghost use Rattle.dictionary.specs.Narrowing.{narrowed};
ghost use Rattle.runs.specs.Runs.{asking, ended_as, ran_on};

use charset::Charset;
use dictionary::{narrow, search};
use lines::walk::{count, is_ended, line_end};
use narrowing::Narrowed;
use querygrammar::Edition;
use token::refusal::Refusal;

// The query of a line, as the part of it where it lies, and its edition, which the line's first byte names.
fn asked(line: &[u8]) -> (Edition, &[u8])
    ensures { (result.0, result.1.now) ≡ asking line.now }
{
    match line {
        [] => (Edition::First, line),
        [b'F', query @ ..] => (Edition::Second(Charset::Fsw), query),
        [b'S', query @ ..] => (Edition::Second(Charset::Swu), query),
        _ => (Edition::First, line),
    }
}

// What a run has come to after one more call. The next call takes the count of the last one that was accepted.
fn after_call(left: Narrowed, call: Result<Narrowed, Refusal>) -> Narrowed
    requires { left.dropped + (as_narrowed call).dropped ≤ 65535 }
    ensures { result ≡ record { kept = next_count left.kept (as_narrowed call); dropped = left.dropped + (as_narrowed call).dropped } }
{
    match call {
        Ok(accepted) => {
            let dropped = left.dropped + accepted.dropped;
            Narrowed {
                kept: accepted.kept,
                dropped,
            }
        }
        Err(_) => left,
    }
}

// Narrows by the query of each line in order.
fn narrow_each(set: Charset, dict: &[u8], list: &mut [u16], n: usize, queries: &[u8]) -> Narrowed
    requires { total (run (narrowed set dict.now) (map asking (lines queries.now)) list.old n).answers ≤ 65535 }
    ensures { (as_narrowed (Ok result), list.new) ≡ ended_as (run (narrowed set dict.now) (map asking (lines queries.now)) list.old n) }
{
    let mut left = Narrowed {
        kept: n,
        dropped: 0,
    };
    let mut start = 0;
    for _ in 0..count(queries) {
        let end = line_end(queries, start);
        let line = &queries[start..end];
        let (edition, query) = asked(line);
        left = after_call(left, narrow(set, dict, list, left.kept, edition, query));
        start = end + 1;
    }
    left
}

// Searches a dictionary by a query and narrows by the query of each line in order: of the second edition in FSW or in SWU after F or
// S, otherwise of the first. Answers the search's refusal, or how many of the entries that it wrote are left and how many were dropped
// in all. Queries that do not end in byte 10 are refused first, as 2 at their length: no query is cut short.
pub fn run_queries(
    set: Charset,
    dict: &[u8],
    list: &mut [u16],
    edition: Edition,
    query: &[u8],
    queries: &[u8],
) -> Result<Narrowed, Refusal>
    ensures { (as_narrowed result, list.new) ≡ ran_on set dict.now list.old (edition, query.now) queries.now }
{
    if !is_ended(queries) {
        return Err(Refusal::TextShort(queries.len()));
    }
    let found = search(set, dict, list, edition, query)?;
    Ok(narrow_each(set, dict, list, found.written, queries))
}
