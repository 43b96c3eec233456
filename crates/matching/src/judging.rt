// Judging a query that lies in words and a sign that lies in memory.
ghost use Rattle.std.specs.Prelude.{◌≡◌, ◌&&◌, leb, length, ◌+◌, ◌*◌, ◌≤◌, ◌<◌, eqb};
ghost use Rattle.writer.specs.Arrays.{upto, symbol_at, meaning_in};
ghost use Rattle.matching.specs.Meets.{within, first_from, told, is_met};
ghost use Rattle.matching.specs.Inner.{word, fits_one, fits_at, serves_at, after, offset, Laid, counted, after_rows, after_prefix, judged_words, verdict_in_words};

use crate::Verdict;
use grammar::{Head, Symbols};
use queryitem::words::{FIRST_ROW, PRESENT};

// The conditions of a query that was read into words.
#[derive(Clone, Copy)]
pub struct Conditions<'a> {
    pub words: &'a [u16],
    pub ghost laid: { Laid words.now },
}

// An item of a query: the row of words at an offset. A coordinate or a turn that is not asked is a number there, 0 or 16, since a
// query is one lent array of numbers.
#[derive(Clone, Copy)]
struct Row<'a> {
    words: &'a [u16],
    at: usize,
    ghost inside: { after words.now at ≤ length words.now },
}

// Whether a code fits the alternative at an offset: it is one of lo to hi, with the remainder turn unless turn is 16. The remainder
// is asked first: it is seldom the one sought, where a code lies below lo as often as not, which no processor can foresee.
#[tactic(auto, unfolding(crate::specs::Inner::fits_numbers))]
fn fits_one(words: &[u16], at: usize, code: u16) -> bool
    requires { at + 3 ≤ length words.now }
    ensures { result ≡ fits_one words.now at code }
{
    let lo = words[at];
    let hi = words[at + 1];
    let turn = words[at + 2];
    if turn != 16 && code % 16 != turn {
        return false;
    }
    lo <= code && code <= hi
}

// Whether two numbers differ by at most the variance.
fn near(variance: u16, a: u16, b: u16) -> bool
    ensures { result ≡ within variance a b }
{
    a.abs_diff(b) <= variance
}

impl Row<'_> {
    // Whether a code fits one of its alternatives. One needs no loop. `as`, here and below: by From the proof of this function does not
    // close.
    fn fits(self, code: u16) -> bool
        ensures { result ≡ fits_at self.entry.words.now self.entry.at code }
    {
        let n = self.words[self.at + 2] as usize;
        if n == 1 {
            return fits_one(self.words, self.at + 3, code);
        }
        for k in 0..n {
            if fits_one(self.words, self.at + 3 + 3 * k, code) {
                return true;
            }
        }
        false
    }

    // Whether symbol i serves the item.
    #[tactic(auto, unfolding(crate::specs::Inner::serves_at))]
    fn serves(self, variance: u16, symbols: &Symbols, i: usize) -> bool
        requires { i < 64 }
        ensures { result ≡ serves_at self.entry.words.now self.entry.at variance (symbol_at symbols.now i) }
    {
        if !self.fits(symbols.codes[i]) {
            return false;
        }
        let across = self.words[self.at];
        across == 0
            || near(variance, across, symbols.xs[i])
                && near(variance, self.words[self.at + 1], symbols.ys[i])
    }

    // The first of n symbols that serves the item, counted from 1.
    fn first_serving(self, variance: u16, symbols: &Symbols, n: usize) -> Option<u16>
        requires { n ≤ 64 }
        ensures { result ≡ counted (first_from 1 (serves_at self.entry.words.now self.entry.at variance) (upto (symbol_at symbols.now) n)) }
    {
        for i in 0..n {
            if self.serves(variance, symbols, i) {
                // `as`: at most 64
                return Some((i + 1) as u16);
            }
        }
        None
    }

    // The offset after it.
    fn end(self) -> usize
        ensures { result ≡ after self.entry.words.now self.entry.at }
    {
        let n = self.words[self.at + 2] as usize;
        self.at + 3 + 3 * n
    }
}

impl Conditions<'_> {
    // The offset after the rows of the prefix, where its codes begin with symbols that satisfy their items one by one.
    fn after_rows(self, codes: &[u16]) -> Option<usize>
        ensures { result ≡ after_rows self.entry.words.now (word self.entry.words.now 1) codes.now }
    {
        let m = self.words[1] as usize;
        if codes.len() < m {
            return None;
        }
        let mut at = FIRST_ROW;
        for code in &codes[..m] {
            let row = Row {
                words: self.words,
                at,
            };
            if !row.fits(*code) {
                return None;
            }
            at = row.end();
        }
        Some(at)
    }

    // The offset after the rows of the prefix, where the prefix condition holds.
    fn after_prefix(self, codes: &[u16]) -> Option<usize>
        ensures { result ≡ after_prefix self.entry.words.now codes.now }
    {
        if self.words[0] != PRESENT {
            return self.after_rows(codes);
        }
        (0 < codes.len()).then_some(FIRST_ROW)
    }

    // The verdict on the signbox items, whose rows start at an offset.
    fn judge_rows(self, at: usize, symbols: &Symbols, k: usize) -> Verdict
        requires { (at ≡ offset self.words.now (word self.words.now 1)) × (k ≤ 64) }
        ensures { result ≡ told (judged_words self.entry.words.now (upto (symbol_at symbols.now) k)) }
    {
        let n = self.words[2] as usize;
        let variance = self.words[3];
        let mut witnesses = [0u16; 32];
        let mut at = at;
        for j in 0..n {
            // `as`: at most 32
            let condition = (j + 1) as u16;
            let row = Row {
                words: self.words,
                at,
            };
            let Some(witness) = row.first_serving(variance, symbols, k) else {
                return Verdict::Unmet(condition);
            };
            witnesses[j] = witness;
            at = row.end();
        }
        Verdict::Met(witnesses)
    }

    // The verdict on a sign.
    pub fn judge(self, head: Head, symbols: &Symbols) -> Verdict
        requires { (head.prefix_count ≤ 32) × (head.symbol_count ≤ 64) }
        ensures { result ≡ told (verdict_in_words self.entry.words.now (meaning_in head symbols.now)) }
    {
        match self.after_prefix(&symbols.prefix[..head.prefix_count]) {
            None => Verdict::Unmet(0),
            Some(at) => self.judge_rows(at, symbols, head.symbol_count),
        }
    }

    // Whether a sign meets them.
    pub fn meets(self, head: Head, symbols: &Symbols) -> bool
        requires { (head.prefix_count ≤ 32) × (head.symbol_count ≤ 64) }
        ensures { result ≡ is_met (verdict_in_words self.entry.words.now (meaning_in head symbols.now)) }
    {
        matches!(self.judge(head, symbols), Verdict::Met(_))
    }
}
