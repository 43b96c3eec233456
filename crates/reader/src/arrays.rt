// Reading a sign into lent memory: every symbol is read and counted, and the first 32 and 64 are kept.
ghost use Rattle.std.specs.Prelude.{◌≡◌, ◌≤◌, length, set as set_at};
ghost use Rattle.token.specs.Padded.{zeros};
ghost use Rattle.grammar.specs.Memory.{no_symbols};
ghost use Rattle.reader.specs.Inner.{PrefixIn, SymbolsIn, SignboxIn, Begun, LeadingPrefix, Room, SignInto, TextInto, ReadInto, limited};

use charset::Charset;
use grammar::{Head, Symbols};
use token::refusal::Refusal;

// A store where there is room for it.
fn put(a: &mut [u16], n: usize, value: u16)
    ensures { a.new ≡ set_at a.old n value }
{
    if n < a.len() {
        a[n] = value;
    }
}

// How many symbols were read, and the offset after them.
#[derive(Clone, Copy)]
struct Count {
    count: usize,
    end: usize,
}

// Prefix symbols as far as they go: all are counted, and the first 32 kept. The text says how many there are, so that no range
// counts them.
fn prefix_into(set: Charset, s: &[u8], at: usize, prefix: &mut [u16; 32]) -> Result<Count, Refusal>
    requires { (at ≤ length s.now) × (prefix.old ≡ zeros 32) }
    ensures { PrefixIn set s.now at result prefix.new }
{
    let mut n: usize = 0;
    let mut i = at;
    let size = token::reading::symbol_size(set);
    while i < s.len() {
        match part::reading::prefix_symbol_at(set, s, i) {
            Ok(code) => {
                put(prefix, n, code);
                n += 1;
                i += size;
            }
            Err(refusal) if refusal.is_wrong_at(i) => return Ok(Count { count: n, end: i }),
            Err(refusal) => return Err(refusal),
        }
    }
    Ok(Count { count: n, end: i })
}

// Spatial symbols as far as they go: all are counted, and the first 64 kept. This loop and the one before differ in what is read
// and where it is kept; a trait for both would be longer than they are.
fn symbols_into(set: Charset, s: &[u8], at: usize, symbols: &mut Symbols) -> Result<Count, Refusal>
    requires { (at ≤ length s.now) × Room symbols.old }
    ensures { SymbolsIn set s.now at result symbols.old symbols.new }
{
    let mut n: usize = 0;
    let mut i = at;
    let size = part::reading::spatial_size(set);
    while i < s.len() {
        match part::reading::spatial_at(set, s, i) {
            Ok(symbol) => {
                put(&mut symbols.codes, n, symbol.value);
                put(&mut symbols.xs, n, symbol.x);
                put(&mut symbols.ys, n, symbol.y);
                n += 1;
                i += size;
            }
            Err(refusal) if refusal.is_wrong_at(i) => return Ok(Count { count: n, end: i }),
            Err(refusal) => return Err(refusal),
        }
    }
    Ok(Count { count: n, end: i })
}

// The signbox at an offset, after a prefix of so many symbols, and the offset after it.
fn signbox_into(
    set: Charset,
    s: &[u8],
    at: usize,
    prefix_count: usize,
    symbols: &mut Symbols,
) -> Result<(Head, usize), Refusal>
    requires { (at ≤ length s.now) × Room symbols.old }
    ensures { SignboxIn set s.now at prefix_count result symbols.old symbols.new }
{
    let lead = part::reading::lead_at(set, s, at)?;
    let size = part::reading::lead_size(set);
    let found = symbols_into(set, s, at + size, symbols)?;
    let head = Head {
        marker: lead.value,
        max_x: lead.x,
        max_y: lead.y,
        prefix_count,
        symbol_count: found.count,
    };
    Ok((head, found.end))
}

// The prefix after its A: it has a symbol.
fn prefix_after(set: Charset, s: &[u8], prefix: &mut [u16; 32]) -> Result<Count, Refusal>
    requires { Begun set s.now × (prefix.old ≡ zeros 32) }
    ensures { LeadingPrefix set s.now result prefix.new }
{
    let size = token::reading::marker_size(set);
    let found = prefix_into(set, s, size, prefix)?;
    let some = 0 < found.count;
    if some {
        return Ok(found);
    }
    if found.end < s.len() {
        return Err(Refusal::TextWrong(found.end));
    }
    Err(Refusal::TextShort(s.len()))
}

// The prefix at the start of a text: where no A stands there is none.
fn leading_prefix(set: Charset, s: &[u8], prefix: &mut [u16; 32]) -> Result<Count, Refusal>
    requires { prefix.old ≡ zeros 32 }
    ensures { LeadingPrefix set s.now result prefix.new }
{
    if s.is_empty() {
        return Ok(Count { count: 0, end: 0 });
    }
    match token::reading::marker_at(set, s, 0, 0, 0) {
        Ok(_) => prefix_after(set, s, prefix),
        Err(refusal) if refusal.is_wrong_at(0) => Ok(Count { count: 0, end: 0 }),
        Err(refusal) => Err(refusal),
    }
}

// Reads the sign at the start of a text, whatever the counts and whatever follows, and tells where it ends. The signbox is read in
// one place, so that the compiler takes its loop in.
pub fn sign_into(set: Charset, s: &[u8], symbols: &mut Symbols) -> Result<(Head, usize), Refusal>
    requires { symbols.old ≡ no_symbols }
    ensures { SignInto set s.now result symbols.new }
{
    let found = leading_prefix(set, s, &mut symbols.prefix)?;
    signbox_into(set, s, found.end, found.count, symbols)
}

// The same where nothing follows the sign.
pub fn text_into(set: Charset, s: &[u8], symbols: &mut Symbols) -> Result<Head, Refusal>
    requires { symbols.old ≡ no_symbols }
    ensures { TextInto set s.now result symbols.new }
{
    let (head, end) = sign_into(set, s, symbols)?;
    token::reading::left_over(set, s.len(), end)?;
    Ok(head)
}

// The limits are judged after the text.
#[tactic(auto, unfolding(crate::specs::Inner::limited))]
pub fn within_limits(head: Head) -> Result<Head, Refusal>
    ensures { result ≡ limited head }
{
    let prefix_long = 32 < head.prefix_count;
    if prefix_long {
        return Err(Refusal::PrefixLong);
    }
    let signbox_long = 64 < head.symbol_count;
    if signbox_long {
        return Err(Refusal::SignboxLong);
    }
    Ok(head)
}

// Reads a whole text as a sign within the limits.
pub fn read_into(set: Charset, s: &[u8], symbols: &mut Symbols) -> Result<Head, Refusal>
    requires { symbols.old ≡ no_symbols }
    ensures { ReadInto set s.now result symbols.new }
{
    let head = text_into(set, s, symbols)?;
    within_limits(head)
}
