// Numbers in digits of any kind, read digit by digit, so that the place of what is wrong is known.
ghost use Rattle.std.specs.Prelude.{◌≡◌, ℕ, [], ◌∷◌, ◌+◌, ◌^◌, ◌≤◌};
ghost use Rattle.format.specs.Numeral.{Weights};
ghost use Rattle.format.proofs.Numerals.{Digit as isDigit};
ghost use Rattle.charset.specs.Bytes.{digit_of, digit_byte};
ghost use Rattle.charset.proofs.Units.{digit_strict};
ghost use Rattle.token.specs.Token.{token_at};
ghost use Rattle.token.specs.Digits.{one_digit, number_in};

use super::refusal::Refusal;

// A kind of digit: one byte that stands for a number.
pub trait Digit {
    // the greatest, the number that a byte stands for, and the byte of a number
    ghost top: { ℕ };

    ghost value: { ℕ → ℕ };

    ghost byte: { ℕ → ℕ };

    // Over `top` for a byte that is no digit.
    fn value_of(b: u8) -> u16
        ensures { result ≡ value b };

    // Each digit has one byte, and stands for itself.
    ghost strict: { isDigit top (one_digit value byte) };
}

// A hexadecimal digit in lower case: 16 stands for any other byte.
#[derive(Clone, Copy)]
pub struct Hexadecimal;

impl Digit for Hexadecimal {
    ghost top = { 15 };

    ghost value = { digit_of };

    ghost byte = { digit_byte };

    fn value_of(b: u8) -> u16 {
        match b {
            b'0'..=b'9' => u16::from(b - b'0'),
            b'a'..=b'f' => u16::from(b - b'a') + 10,
            _ => 16,
        }
    }

    ghost strict = { digit_strict };
}

// One digit of lo to hi. This and what follows are always inlined: their limits are numbers where they are called, and as a call a
// number of three digits takes twice as long.
#[inline(always)]
pub fn digit_at<D: Digit>(s: &[u8], at: usize, lo: u16, hi: u16) -> Result<u16, Refusal>
    ensures { result ≡ token_at (one_digit D.value D.byte lo hi) s.now at }
{
    if s.len() <= at {
        return Err(Refusal::TextShort(s.len()));
    }
    let d = D::value_of(s[at]);
    if d < lo || hi < d {
        return Err(Refusal::TextWrong(at));
    }
    Ok(d)
}

// Two digits that say a number of lo to hi, the first with the weight p.
#[inline(always)]
pub fn two_at<D: Digit>(s: &[u8], at: usize, p: u16, lo: u16, hi: u16) -> Result<u16, Refusal>
    requires { (at + 8 ≤ 2 ^ 64) × (lo ≤ hi) × Weights D.top D.top hi (p ∷ []) }
    ensures { result ≡ token_at (number_in D.value D.byte (p ∷ []) lo hi) s.now at }
{
    let a = digit_at::<D>(s, at, lo / p, hi / p)?;
    let from = a * p;
    let least = lo.saturating_sub(from);
    let most = (p - 1).min(hi.saturating_sub(from));
    let b = digit_at::<D>(s, at + 1, least, most)?;
    Ok(from + b)
}

// Three digits that say a number of lo to hi, the first two with the weights p and q.
#[inline(always)]
pub fn three_at<D: Digit>(
    s: &[u8],
    at: usize,
    p: u16,
    q: u16,
    lo: u16,
    hi: u16,
) -> Result<u16, Refusal>
    requires { (at + 16 ≤ 2 ^ 64) × (lo ≤ hi) × Weights D.top D.top hi (p ∷ q ∷ []) }
    ensures { result ≡ token_at (number_in D.value D.byte (p ∷ q ∷ []) lo hi) s.now at }
{
    let a = digit_at::<D>(s, at, lo / p, hi / p)?;
    let from = a * p;
    let least = lo.saturating_sub(from);
    let most = (p - 1).min(hi.saturating_sub(from));
    let b = two_at::<D>(s, at + 1, q, least, most)?;
    Ok(from + b)
}
