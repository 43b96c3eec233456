// Comparing the temporal prefixes of two signs where they lie, by the bytes of their symbols and only as far as they agree.
ghost use Rattle.std.specs.Prelude.{◌≡◌, ℕ, ◌+◌, ◌*◌, ◌^◌, ◌<◌, ◌≤◌, length, take, drop};
ghost use Rattle.arrangement.specs.Prefixes.{less_codes, prefix_before};
ghost use Rattle.prefixes.specs.Words.{number, words_from, words_at};
ghost use Rattle.prefixes.specs.Inner.{word_in, WordAt, MarkedAt, FirstAt};

use charset::Charset;

// What stands for the first word of a sign without prefix, which comes last. As numbers, 0 for no word and this compare in the order
// that is asked for; an Option would have to be told where its None comes.
const NO_PREFIX: u64 = 0xffffffffffffffff;

// The marker A in SWU.
const SWU_A: u64 = 0xf09da080;

// N bytes at an offset as one number, the first the highest.
fn number_at<const N: usize>(s: &[u8], at: usize) -> u64
    requires { (N ≤ 8) × (at + N ≤ length s.now) }
    ensures is { result ≡ number (take N (drop at s.now)) }
    ensures small { result < 2 ^ (8 * N) }
{
    let mut n: u64 = 0;
    for b in &s[at..at + N] {
        n = n * 256 + u64::from(*b);
    }
    n
}

// The word of the symbol of N bytes at an offset, which begins with a lead byte, or 0 where there is none.
fn word<const N: usize>(s: &[u8], at: usize, lead: u8) -> u64
    requires { (1 ≤ N) × (N ≤ 6) × (at + 64 ≤ 2 ^ 64) }
    ensures is { result ≡ word_in N lead (drop at s.now) }
    ensures small { result < 2 ^ 48 }
{
    if s.len() < at + N || s[at] != lead {
        return 0;
    }
    number_at::<N>(s, at)
}

fn word_at(set: Charset, s: &[u8], at: usize) -> u64
    requires { at + 64 ≤ 2 ^ 64 }
    ensures is { WordAt set s.now at result }
    ensures small { result < 2 ^ 48 }
{
    match set {
        Charset::Fsw => word::<6>(s, at, b'S'),
        Charset::Swu => word::<4>(s, at, 0xf1),
    }
}

// Whether there is an A at an offset.
fn is_marked(set: Charset, s: &[u8], at: usize) -> bool
    requires { at + 64 ≤ 2 ^ 64 }
    ensures { MarkedAt set s.now at result }
{
    match set {
        Charset::Fsw => at < s.len() && s[at] == b'A',
        Charset::Swu => at + 4 <= s.len() && number_at::<4>(s, at) == SWU_A,
    }
}

// The first word of the prefix at an offset, after its A, or NO_PREFIX where there is none.
#[inline(always)]
fn first_at(set: Charset, s: &[u8], at: usize) -> u64
    requires { at + 128 ≤ 2 ^ 64 }
    ensures { FirstAt set s.now at result }
{
    if !is_marked(set, s, at) {
        return NO_PREFIX;
    }
    let first = word_at(set, s, at + token::reading::marker_size(set));
    if first == 0 {
        return NO_PREFIX;
    }
    first
}

// Whether the words at one offset, at most 31, are less than those at another.
#[inline(always)]
fn words_before(set: Charset, s: &[u8], i: usize, j: usize) -> bool
    requires { (i + 1024 ≤ 2 ^ 64) × (j + 1024 ≤ 2 ^ 64) }
    ensures { result ≡ less_codes (words_from set 31 (drop i s.now)) (words_from set 31 (drop j s.now)) }
{
    let size = token::reading::symbol_size(set);
    let mut x = i;
    let mut y = j;
    for _passed in 0..31usize {
        let a = word_at(set, s, x);
        let b = word_at(set, s, y);
        if a != b {
            return a < b;
        }
        if a == 0 {
            return false;
        }
        x += size;
        y += size;
    }
    false
}

// Whether the prefix at one offset comes before that at another.
#[inline(always)]
fn before(set: Charset, s: &[u8], i: usize, j: usize) -> bool
    requires { (i + 2048 ≤ 2 ^ 64) × (j + 2048 ≤ 2 ^ 64) }
    ensures { result ≡ prefix_before (words_at set s.now i) (words_at set s.now j) }
{
    let a = first_at(set, s, i);
    let b = first_at(set, s, j);
    if a != b {
        return a < b;
    }
    if a == NO_PREFIX {
        return false;
    }
    let first = token::reading::marker_size(set) + token::reading::symbol_size(set);
    words_before(set, s, i + first, j + first)
}

// As `before`, which is made once for each character set, so that the compiler knows its sizes.
pub fn prefix_before(set: Charset, s: &[u8], i: usize, j: usize) -> bool
    requires { (i + 2048 ≤ 2 ^ 64) × (j + 2048 ≤ 2 ^ 64) }
    ensures { result ≡ prefix_before (words_at set s.now i) (words_at set s.now j) }
{
    match set {
        Charset::Fsw => before(Charset::Fsw, s, i, j),
        Charset::Swu => before(Charset::Swu, s, i, j),
    }
}
