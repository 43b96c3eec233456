// Parts of a styling string, read at an offset of a text. Each is put into lent memory as far as that reaches.
ghost use Rattle.std.specs.Prelude.{◌≡◌, set};
ghost use Rattle.stylingreader.specs.Parts.{joined_part, stands_at, passed_part, missing, closed_part};

use token::reading::byte_at;
use token::refusal::Refusal;

// A part that was read: the offset after it, whether its zooms are in range with at most two decimals and its colour names not too
// long, and what it comes to: the number that its digits say, or how many colours or symbol styles it has.
// The two tests stand apart: side by side the compiler would load both at once, and wait for the two stores of one byte each.
#[derive(Clone, Copy)]
pub struct Part {
    pub zooms: bool,
    pub place: usize,
    pub names: bool,
    pub amount: u16,
}

impl Part {
    // A part up to an offset that keeps within every limit.
    pub fn passed(place: usize, amount: u16) -> Part
        ensures { result ≡ passed_part place amount }
    {
        Part {
            zooms: true,
            place,
            names: true,
            amount,
        }
    }

    // This part and the next.
    pub fn joined(self, next: Part) -> Part
        ensures { result ≡ joined_part self next }
    {
        Part {
            zooms: self.zooms & next.zooms,
            place: next.place,
            names: self.names & next.names,
            amount: next.amount,
        }
    }

    // This part, which has to end in the byte b.
    pub fn closed(self, s: &[u8], b: u8) -> Result<Part, Refusal>
        ensures { result ≡ closed_part s.now self b }
    {
        byte_at(s, self.place, b)?;
        Ok(Part {
            place: self.place + 1,
            ..self
        })
    }
}

// Memory that does not reach as far is left as it is.
pub fn put(to: &mut [u16], i: usize, v: u16)
    ensures { to.new ≡ set to.old i v }
{
    if i < to.len() {
        to[i] = v;
    }
}

// Whether the byte b stands at an offset.
#[tactic(auto, unfolding(crate::specs::Parts::stands_at))]
pub fn stands(s: &[u8], at: usize, b: u8) -> bool
    ensures { result ≡ stands_at s.now at b }
{
    at < s.len() && s[at] == b
}

// The refusal at an offset where what has to stand there does not.
#[tactic(auto, unfolding(crate::specs::Parts::missing))]
pub fn missing(s: &[u8], at: usize) -> Refusal
    ensures { result ≡ missing s.now at }
{
    if at < s.len() {
        Refusal::TextWrong(at)
    } else {
        Refusal::TextShort(s.len())
    }
}
