// The verdict of a query on a sign, both as texts.
#![tactic(auto)]

ghost use Rattle.std.specs.Prelude.{◌≡◌, length};
ghost use Rattle.query.specs.Inner.{Blank};
ghost use Rattle.matching.specs.Meets.{as_verdict};
ghost use Rattle.verdict.specs.Verdict.{verdict_in};
ghost use Rattle.verdict.specs.Inner.{Fits};

use charset::Charset;
use matching::Verdict;
use matching::judging::Conditions;
use querygrammar::Edition;
use queryitem::words::WORDS;
use token::refusal::Refusal;

pub mod judging;

// The bytes of a short query, and the words in which each has room, by three words to two bytes: 4 + 64 * 3 / 2 + 21.
const SHORT_QUERY: usize = 64;

const SHORT_WORDS: usize = 121;

// The verdict of a query that is read into words, which are zeros and have room for it.
#[tactic(auto, using(crate::proofs::Answers::query_refused, token::proofs::Handed::handed))]
fn verdict_in_words(
    set: Charset,
    edition: Edition,
    query: &[u8],
    text: &[u8],
    words: &mut [u16],
) -> Result<Verdict, Refusal>
    requires { Blank words.old × Fits edition query.now (length words.old) }
    ensures { as_verdict result ≡ verdict_in set (edition, query.now) text.now }
{
    query::words::read_into(edition, query, words)?;
    judging::judge_text(set, text, Conditions { words })
}

// Whether a sign meets a query of an edition: the refusals of the query first, then those of the sign. A short query
// gets fewer words, since clearing them takes time.
pub fn verdict(
    set: Charset,
    edition: Edition,
    query: &[u8],
    text: &[u8],
) -> Result<Verdict, Refusal>
    ensures { as_verdict result ≡ verdict_in set (edition, query.now) text.now }
{
    if query.len() <= SHORT_QUERY {
        verdict_in_words(set, edition, query, text, &mut [0; SHORT_WORDS])
    } else {
        verdict_in_words(set, edition, query, text, &mut [0; WORDS])
    }
}
