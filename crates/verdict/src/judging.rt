// The verdict on a text by the conditions of a query: what a dictionary asks of each line.
ghost use Rattle.std.specs.Prelude.{◌≡◌};
ghost use Rattle.token.specs.Result.{outcome};
ghost use Rattle.reader.specs.Signs.{sign_of};
ghost use Rattle.matching.specs.Meets.{as_verdict};
ghost use Rattle.verdict.specs.Inner.{verdict_on_words, met_on_words};

use charset::Charset;
use grammar::Symbols;
use matching::Verdict;
use matching::judging::Conditions;
use token::refusal::Refusal;

pub fn judge_text(set: Charset, text: &[u8], conditions: Conditions) -> Result<Verdict, Refusal>
    ensures { as_verdict result ≡ verdict_on_words conditions.entry.words.now (sign_of set text.now) }
{
    let mut symbols = Symbols::none();
    let head = reader::arrays::read_into(set, text, &mut symbols)?;
    Ok(conditions.judge(head, &symbols))
}

// Whether the sign meets them. By judge_text, its verdict would be taken apart here again, in as many lines.
pub fn meets_text(set: Charset, text: &[u8], conditions: Conditions) -> Result<bool, Refusal>
    ensures { outcome result ≡ met_on_words conditions.entry.words.now (sign_of set text.now) }
{
    let mut symbols = Symbols::none();
    let sign = reader::arrays::read_into(set, text, &mut symbols)?;
    Ok(conditions.meets(sign, &symbols))
}
