// Queries: reading, and the verdict on a sign.
ghost use Rattle.std.specs.Prelude.{◌≡◌};
ghost use Rattle.query.specs.Reading.{query_of, reading_of};
ghost use Rattle.verdict.specs.Verdict.{verdict_in};
ghost use Rattle.layout.specs.Layouts.{set_of, edition_of, query_numbers, verdict_numbers};

use layout::numbers::{edition_of, set_of, told};
use layout::verdicts::verdict_numbers;

// Whether a query of an edition is refused.
#[unsafe(no_mangle)]
pub extern "C" fn halofret_read_query(
    second: bool,
    query_swu: bool,
    query: &[u8],
    answer: &mut [u64; 2],
)
    ensures { answer.new ≡ query_numbers (reading_of (query_of (edition_of second query_swu) query.now)) }
{
    *answer = told(&query::read(edition_of(second, query_swu), query));
}

// Whether a sign meets a query: met, the unmet condition, then 32 witnesses.
#[unsafe(no_mangle)]
pub extern "C" fn halofret_verdict(
    swu: bool,
    second: bool,
    query_swu: bool,
    query: &[u8],
    text: &[u8],
    answer: &mut [u64; 36],
)
    ensures { answer.new ≡ verdict_numbers (verdict_in (set_of swu) (edition_of second query_swu, query.now) text.now) }
{
    let edition = edition_of(second, query_swu);
    *answer = verdict_numbers(verdict::verdict(set_of(swu), edition, query, text));
}
