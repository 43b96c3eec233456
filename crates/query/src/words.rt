// Reading a query into lent words: every item is read and counted, and the first 32 of the prefix and of the signbox are kept.
ghost use Rattle.std.specs.Prelude.{◌≡◌, ◌≤◌, ◌||◌, length};
ghost use Rattle.std.specs.Option.{option_or};
ghost use Rattle.query.specs.Inner.{Blank, LimitedInto, TailIn, Asks, no_items, Prefixed, PrefixIn, HeadIn, ReadInto, word_of};

use querygrammar::Edition;
use queryitem::words::{BEGINS, FIRST_ROW, FREE, MOST_ITEMS, PRESENT};
use querypart::alternatives::{Part, put_three};
use querypart::items::Count;
use token::refusal::Refusal;

// What condition 0 asks of the prefix: nothing, that there is one, or that it begins with items.
#[derive(Clone, Copy)]
enum Asked {
    Free,
    Present,
    Begins,
}

impl From<Asked> for u16 {
    ghost from_gives = { λ asked word. word ≡ word_of asked };

    fn from(asked: Asked) -> u16 {
        match asked {
            Asked::Free => FREE,
            Asked::Present => PRESENT,
            Asked::Begins => BEGINS,
        }
    }
}

// The limits and the order of ranges are judged after the text, of the items of the prefix and of those that are sought.
// The first four words are put last.
fn limited_into(
    words: &mut [u16],
    asked: Asked,
    before: Count,
    sought: Count,
    variance: u16,
) -> Result<(), Refusal>
    requires { 4 ≤ length words.old }
    ensures { LimitedInto (word_of asked) before.count sought.count variance (before.crowded || sought.crowded) (option_or before.reversed sought.reversed) words.old result words.new }
{
    let long = MOST_ITEMS < before.count;
    if long {
        return Err(Refusal::PrefixLong);
    }
    if MOST_ITEMS < sought.count {
        return Err(Refusal::SignboxLong);
    }
    if before.crowded || sought.crowded {
        return Err(Refusal::AlternativesLong);
    }
    if let Some(at) = before.reversed.or(sought.reversed) {
        return Err(Refusal::RangeReversed(at));
    }
    words[0] = u16::from(asked);
    // `as`: both counts are within the limits
    put_three(words, 1, before.count as u16, sought.count as u16, variance);
    Ok(())
}

// The signbox items and the variance, up to the end of the text, after what is asked of the prefix, whose items were counted.
fn tail_into(
    s: &[u8],
    edition: Edition,
    asked: Asked,
    before: Count,
    words: &mut [u16],
) -> Result<(), Refusal>
    requires { (before.next ≤ length s.now) × (31 ≤ length words.old) × (before.row ≤ length words.old) }
    ensures { TailIn edition s.now (word_of asked) before words.old result words.new }
{
    let part = Part {
        edition,
        boxed: true,
    };
    let sought = part.items_into(s, before.next, words, before.row)?;
    let variance = querypart::variance::variance_end(s, sought.next)?;
    limited_into(words, asked, before, sought, variance)
}

// No items, before an offset.
fn no_items(next: usize) -> Count
    ensures { result ≡ no_items next }
{
    Count {
        next,
        count: 0,
        reversed: None,
        crowded: false,
        row: FIRST_ROW,
    }
}

// The items of the prefix after their A, and the T.
fn prefix_items_into(s: &[u8], edition: Edition, words: &mut [u16]) -> Result<Count, Refusal>
    requires { Prefixed edition s.now × Blank words.old }
    ensures { PrefixIn edition s.now 2 (length words.old) result words.new }
{
    let part = Part {
        edition,
        boxed: false,
    };
    let items = part.items_into(s, 2, words, FIRST_ROW)?;
    if items.count == 0 {
        if items.next < s.len() {
            return Err(Refusal::TextWrong(items.next));
        }
        return Err(Refusal::TextShort(s.len()));
    }
    token::reading::byte_at(s, items.next, b'T')?;
    Ok(Count {
        next: items.next + 1,
        ..items
    })
}

// What asks for a prefix, by what follows the Q: T, the A of a prefix with its items, or anything else.
fn prefix_into(s: &[u8], edition: Edition, words: &mut [u16]) -> Result<(Asked, Count), Refusal>
    requires { Asks edition s.now × Blank words.old }
    ensures { HeadIn edition s.now (length words.old) result words.new }
{
    if token::reading::byte_at(s, 1, b'T').is_ok() {
        return Ok((Asked::Present, no_items(2)));
    }
    if token::reading::byte_at(s, 1, b'A').is_ok() {
        let items = prefix_items_into(s, edition, words)?;
        return Ok((Asked::Begins, items));
    }
    Ok((Asked::Free, no_items(1)))
}

// What follows the Q.
fn after_q_into(s: &[u8], edition: Edition, words: &mut [u16]) -> Result<(), Refusal>
    requires { Asks edition s.now × Blank words.old }
    ensures { ReadInto edition s.now (length words.old) result words.new }
{
    let (asked, before) = prefix_into(s, edition, words)?;
    tail_into(s, edition, asked, before, words)
}

// Reads a query into words that are zeros. Their first are the query's if there is room for them and 21 more.
pub fn read_into(edition: Edition, s: &[u8], words: &mut [u16]) -> Result<(), Refusal>
    requires { Blank words.old }
    ensures { ReadInto edition s.now (length words.old) result words.new }
{
    token::reading::byte_at(s, 0, b'Q')?;
    after_q_into(s, edition, words)
}
