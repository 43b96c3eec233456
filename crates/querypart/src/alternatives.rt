// Alternatives of an item, into the words of a query: every one is read and counted, and the first eight are kept.
ghost use Rattle.std.specs.Prelude.{◌≡◌, ◌+◌, ◌≤◌, length, [], ◌∷◌};
ghost use Rattle.std.proofs.lemmas.List.Edits.{sets};
ghost use Rattle.querygrammar.specs.Spelling.{spelling};
ghost use Rattle.querypart.specs.Inner.{noted, slot_of, single, other, alternatives, OneIn, AllIn};

use querygrammar::Edition;
use queryitem::reading::Numbers;
use queryitem::words::MOST_ALTERNATIVES;
use token::refusal::Refusal;

// How many were read, the offset after them, and that of the first reversed range.
#[derive(Clone, Copy)]
pub struct Listed {
    pub next: usize,
    pub count: usize,
    pub reversed: Option<usize>,
}

// The offset of an item if it is a reversed range.
fn note(item: Numbers, at: usize) -> Option<usize>
    ensures { result ≡ noted item at }
{
    if item.hi < item.lo { Some(at) } else { None }
}

// Where alternative number n is put: after those before it or, if it is not one of the first, anywhere.
pub fn slot(n: usize, most: usize, row: usize, from: usize) -> usize
    ensures { result ≡ slot_of n most row from }
{
    if n < most { row } else { from }
}

// Three words, from an offset on.
pub fn put_three(words: &mut [u16], at: usize, first: u16, second: u16, third: u16)
    requires { at + 3 ≤ length words.old }
    ensures { words.new ≡ sets words.old at (first ∷ second ∷ third ∷ []) }
{
    words[at] = first;
    words[at + 1] = second;
    words[at + 2] = third;
}

// Whether an edition joins alternatives.
fn joins(edition: Edition) -> bool
    ensures { result ≡ (spelling edition).joins }
{
    match edition {
        Edition::First => false,
        Edition::Second(_) => true,
    }
}

// The items of the signbox, or those of the prefix, as an edition spells them.
#[derive(Clone, Copy)]
pub struct Part {
    pub edition: Edition,
    pub boxed: bool,
}

impl Part {
    // One alternative.
    fn one_into(
        self,
        s: &[u8],
        at: usize,
        words: &mut [u16],
        slot: usize,
    ) -> Result<Listed, Refusal>
        requires { (at ≤ length s.now) × (slot + 3 ≤ length words.old) }
        ensures { OneIn (single self.edition self.boxed) s.now at slot result words.old words.new }
    {
        let (item, next) = queryitem::item::item_at(s, at, self.edition, self.boxed)?;
        put_three(words, slot, item.lo, item.hi, item.turn);
        Ok(Listed {
            next,
            count: 1,
            reversed: note(item, at),
        })
    }

    // A further alternative, after its o.
    fn other_into(
        self,
        s: &[u8],
        at: usize,
        words: &mut [u16],
        slot: usize,
    ) -> Result<Listed, Refusal>
        requires { (at ≤ length s.now) × (slot + 3 ≤ length words.old) }
        ensures { OneIn (other self.edition self.boxed) s.now at slot result words.old words.new }
    {
        token::reading::byte_at(s, at, b'o')?;
        self.one_into(s, at + 1, words, slot)
    }

    // Further alternatives as far as they go: all are counted, and the words of the first seven kept from an offset on.
    fn others_into(
        self,
        s: &[u8],
        at: usize,
        words: &mut [u16],
        from: usize,
    ) -> Result<Listed, Refusal>
        requires { (at ≤ length s.now) × (from + 21 ≤ length words.old) }
        ensures { AllIn (other self.edition self.boxed) 7 s.now at from result words.old words.new }
    {
        let mut others = Listed {
            next: at,
            count: 0,
            reversed: None,
        };
        let mut row = from;
        // an alternative says itself how many bytes it takes
        while others.next < s.len() {
            let here = slot(others.count, MOST_ALTERNATIVES - 1, row, from);
            match self.other_into(s, others.next, words, here) {
                Ok(read) => {
                    others.next = read.next;
                    others.count += 1;
                    others.reversed = others.reversed.or(read.reversed);
                    row = here + 3;
                }
                Err(refusal) if refusal.is_wrong_at(others.next) => break,
                Err(refusal) => return Err(refusal),
            }
        }
        Ok(others)
    }

    // Alternatives, which the second edition joins: all are counted, and the words of the first eight kept from an offset on.
    pub fn alternatives_into(
        self,
        s: &[u8],
        at: usize,
        words: &mut [u16],
        from: usize,
    ) -> Result<Listed, Refusal>
        requires { (at ≤ length s.now) × (from + 24 ≤ length words.old) }
        ensures { OneIn (alternatives self.edition self.boxed) s.now at from result words.old words.new }
    {
        let first = self.one_into(s, at, words, from)?;
        if !joins(self.edition) {
            return Ok(first);
        }
        let others = self.others_into(s, first.next, words, from + 3)?;
        Ok(Listed {
            next: others.next,
            count: others.count + 1,
            reversed: first.reversed.or(others.reversed),
        })
    }
}
