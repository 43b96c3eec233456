// Queries: reading, in every edition.
#![tactic(auto)]

ghost use Rattle.std.specs.Prelude.{◌≡◌};
ghost use Rattle.query.specs.Reading.{query_of, reading_of, as_reading};

use querygrammar::Edition;
use queryitem::words::WORDS;
use token::refusal::Refusal;

pub mod words;

// Reads a query of an edition, in words (see queryitem::words): refused as 1 or 2, then 3, then 4, then 22, then 5.
#[tactic(auto, using(crate::proofs::Answers::reading_refused, token::proofs::Handed::handed))]
pub fn read(edition: Edition, text: &[u8]) -> Result<[u16; WORDS], Refusal>
    ensures { as_reading result ≡ reading_of (query_of edition text.now) }
{
    let mut words = [0u16; WORDS];
    words::read_into(edition, text, &mut words)?;
    Ok(words)
}
