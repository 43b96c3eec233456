// Reading a styled text into lent memory, and its styling into a record.
ghost use Rattle.std.specs.Prelude.{◌≡◌, ◌≤◌, eqb, length};
ghost use Rattle.std.specs.List.{position};
ghost use Rattle.grammar.specs.Memory.{no_symbols};
ghost use Rattle.stylingreader.specs.Reading.{styling_from};
ghost use Rattle.styling.specs.Inner.{StyledInto, DraftInto, Undashed, judged_head, StylingAfter, Ready, record_in};

use charset::Charset;
use grammar::{Head, Symbols};
use reader::arrays::{sign_into, text_into, within_limits};
use stylinggrammar::layout::{DRAFT, DRAFTED, RECORD, STYLES};
use stylingreader::reading::{Found, styling_at};
use token::refusal::Refusal;

// Where the first dash stands.
fn first_dash(s: &[u8]) -> Option<usize>
    ensures { result ≡ position (λ b. eqb b 45) s.now }
{
    s.iter().position(|b| *b == b'-')
}

// Why a text without a dash after a whole sign is refused: as a sign is, and a whole sign as unfinished.
fn undashed(set: Charset, s: &[u8]) -> Refusal
    ensures { Undashed set s.now result }
{
    match text_into(set, s, &mut Symbols::none()) {
        Ok(_) => Refusal::TextShort(s.len()),
        Err(refusal) => refusal,
    }
}

// A sign and the styling found after it: all that is refused, in its order.
#[tactic(auto, unfolding(crate::specs::Inner::judged_head))]
fn judged(found: Found, head: Head) -> Result<Head, Refusal>
    ensures { result ≡ judged_head found head }
{
    if !found.zooms {
        return Err(Refusal::ZoomOutside);
    }
    if !found.names {
        return Err(Refusal::ColourLong);
    }
    if !found.few {
        return Err(Refusal::StylesLong);
    }
    within_limits(head)
}

// Reads the styling after a sign, from its dash at an offset on.
fn styling_after(
    s: &[u8],
    at: usize,
    head: Head,
    draft: &mut [u16],
) -> Result<(Head, usize), Refusal>
    requires { at ≤ length s.now }
    ensures { StylingAfter s.now at head result draft.old draft.new }
{
    let found = styling_at(s, at, draft)?;
    let within = judged(found, head)?;
    Ok((within, at))
}

// The text is split at its first dash, and what stands before it read as a whole sign.
fn split_into(
    set: Charset,
    s: &[u8],
    symbols: &mut Symbols,
    draft: &mut [u16],
) -> Result<(Head, usize), Refusal>
    requires { symbols.old ≡ no_symbols }
    ensures sign { StyledInto set s.now result symbols.new }
    ensures styling { DraftInto set s.now draft.old draft.new }
{
    let Some(at) = first_dash(s) else {
        return Err(undashed(set, s));
    };
    match text_into(set, &s[..at], symbols) {
        Ok(head) => styling_after(s, at, head, draft),
        Err(_) => Err(undashed(set, s)),
    }
}

// Reads a styled text into memory without symbols, and its styling into a draft of any length: what lies beyond its end is not
// stored. The head comes with where the styling starts. Mostly the sign that stands at the start ends at the dash, and no byte is
// looked at twice; otherwise, as where less than a character of SWU is left after the sign, the text is split first.
pub fn styled_into(
    set: Charset,
    s: &[u8],
    symbols: &mut Symbols,
    draft: &mut [u16],
) -> Result<(Head, usize), Refusal>
    requires { symbols.old ≡ no_symbols }
    ensures sign { StyledInto set s.now result symbols.new }
    ensures styling { DraftInto set s.now draft.old draft.new }
{
    match sign_into(set, s, symbols) {
        Ok((head, at)) if at < s.len() && s[at] == b'-' => styling_after(s, at, head, draft),
        _ => {
            *symbols = Symbols::none();
            split_into(set, s, symbols, draft)
        }
    }
}

// Fills a record with a styling that is within its limits: from its draft, and where that has no room for all of its symbol styles,
// from the text.
pub fn fill(s: &[u8], draft: &[u16; DRAFT], styling: &mut [u16; RECORD])
    requires { Ready s.now draft.now }
    ensures { styling.new ≡ record_in (styling_from s.now 0) }
{
    if draft[STYLES] <= DRAFTED {
        styling[..DRAFT].copy_from_slice(draft);
        styling[DRAFT..].fill(0);
    } else {
        *styling = [0u16; RECORD];
        // it was read before, so nothing is refused
        let _ = styling_at(s, 0, styling);
    }
}
