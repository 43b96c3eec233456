// Reading one item in FSW at an offset of a text, byte by byte, so that the place of what is wrong is known.
ghost use Rattle.std.specs.Prelude.{◌≡◌, ◌+◌, ◌^◌, ◌≤◌, length, IfSome};
ghost use Rattle.std.proofs.Common.{inl, inr};
ghost use Rattle.token.specs.Token.{token_at};
ghost use Rattle.querygrammar.specs.Spelling.{query_base, key_item, range_item, null_item, key_tail, range_text, fsw_meaning};
ghost use Rattle.queryitem.specs.Numbers.{plain, turn_of, numbers_of};
ghost use Rattle.queryitem.specs.Pieces.{open_at, piece_at, null_at, symbol_at, fsw_at};

use token::numerals::{Hexadecimal, digit_at, three_at};
use token::reading::LAST_PUNCTUATION;
use token::refusal::Refusal;

// An item as three numbers, as a query's words hold it: codes of lo to hi, whose remainder by 16 is turn unless turn is 16.
#[derive(Clone, Copy)]
pub struct Numbers {
    pub lo: u16,
    pub hi: u16,
    pub turn: u16,
}

// A digit up to top, or u, which leaves it open.
fn open_at(s: &[u8], at: usize, top: u16) -> Result<Option<u16>, Refusal>
    requires { top ≤ 15 }
    ensures { result ≡ open_at top s.now at }
{
    match digit_at::<Hexadecimal>(s, at, 0, top) {
        Ok(digit) => Ok(Some(digit)),
        Err(refusal) if refusal.is_wrong_at(at) => {
            token::reading::byte_at(s, at, b'u')?;
            Ok(None)
        }
        Err(refusal) => Err(refusal),
    }
}

fn turn_of(rotation: Option<u16>) -> u16
    requires { IfSome rotation (λ r. r ≤ 15) }
    ensures { result ≡ turn_of (plain rotation) }
{
    match rotation {
        Some(rotation) => (rotation + 1) % 16,
        None => 16,
    }
}

// A symbol key, whose fill and rotation may be open.
pub fn key_numbers(base: u16, fill: Option<u16>, rotation: Option<u16>) -> Numbers
    requires { (0x100 ≤ base) × (base ≤ 0x38b) × IfSome fill (λ f. f ≤ 5) × IfSome rotation (λ r. r ≤ 15) }
    ensures { result ≡ numbers_of (key_item base (plain fill) (plain rotation)) }
{
    let first = (base - 0x100) * 96 + 1;
    let turn = turn_of(rotation);
    match fill {
        Some(fill) => {
            let lo = first + fill * 16;
            Numbers {
                lo,
                hi: lo + 15,
                turn,
            }
        }
        None => Numbers {
            lo: first,
            hi: first + 95,
            turn,
        },
    }
}

pub fn null_numbers() -> Numbers
    ensures { result ≡ numbers_of null_item }
{
    Numbers {
        lo: 0,
        hi: 0,
        turn: 16,
    }
}

pub fn range_numbers(from: u16, to: u16) -> Numbers
    requires { (0x100 ≤ from) × (from ≤ 0x38b) × (0x100 ≤ to) × (to ≤ 0x38b) }
    ensures { result ≡ numbers_of (range_item from to) }
{
    Numbers {
        lo: (from - 0x100) * 96 + 1,
        hi: (to - 0x100) * 96 + 1 + 95,
        turn: 16,
    }
}

// A base of three digits.
fn base_at(s: &[u8], at: usize) -> Result<u16, Refusal>
    requires { at + 16 ≤ 2 ^ 64 }
    ensures { result ≡ token_at query_base s.now at }
{
    three_at::<Hexadecimal>(s, at, 256, 16, 0x100, LAST_PUNCTUATION)
}

// What follows the S of a symbol key, and the offset after it.
fn key_at(s: &[u8], at: usize) -> Result<(Numbers, usize), Refusal>
    requires { at + 32 ≤ 2 ^ 64 }
    ensures { result ≡ piece_at key_tail (λ k. numbers_of (fsw_meaning (inl (inr k)))) s.now at }
{
    let base = base_at(s, at)?;
    let fill = open_at(s, at + 3, 5)?;
    let rotation = open_at(s, at + 4, 15)?;
    Ok((key_numbers(base, fill, rotation), at + 5))
}

// Null where it may stand, otherwise wrong at once.
fn null_or_wrong_at(s: &[u8], at: usize, null: bool) -> Result<u16, Refusal>
    requires { at + 32 ≤ 2 ^ 64 }
    ensures { result ≡ null_at null s.now at }
{
    if null {
        return token::reading::null_at(s, at);
    }
    Err(Refusal::TextWrong(at))
}

// What follows the S of a symbol key or, where null may stand, of null. A key is read at one place, so that the compiler takes it in.
// `null` is a bool, since the edition and the part that is read set it.
fn symbol_at(s: &[u8], at: usize, null: bool) -> Result<(Numbers, usize), Refusal>
    requires { at + 32 ≤ 2 ^ 64 }
    ensures { result ≡ symbol_at null s.now at }
{
    match null_or_wrong_at(s, at, null) {
        Ok(_) => Ok((null_numbers(), at + 5)),
        Err(refusal) if refusal.is_wrong_at(at) => key_at(s, at),
        Err(refusal) => Err(refusal),
    }
}

// The R of an item and what follows it.
fn range_at(s: &[u8], at: usize) -> Result<(Numbers, usize), Refusal>
    requires { at + 32 ≤ 2 ^ 64 }
    ensures { result ≡ piece_at range_text (λ p. numbers_of (fsw_meaning (inr p))) s.now at }
{
    token::reading::byte_at(s, at, b'R')?;
    let from = base_at(s, at + 1)?;
    token::reading::byte_at(s, at + 4, b't')?;
    let to = base_at(s, at + 5)?;
    Ok((range_numbers(from, to), at + 8))
}

// An item, with null among them or without.
pub fn fsw_item_at(s: &[u8], at: usize, null: bool) -> Result<(Numbers, usize), Refusal>
    requires { at ≤ length s.now }
    ensures { result ≡ fsw_at null s.now at }
{
    match token::reading::byte_at(s, at, b'S') {
        Ok(_) => symbol_at(s, at + 1, null),
        Err(refusal) if refusal.is_wrong_at(at) => range_at(s, at),
        Err(refusal) => Err(refusal),
    }
}
