// The two forms of narrowing: which lists they take, and how the first bad line of a list is found.
ghost use Rattle.std.specs.Prelude.{◌≡◌, ℕ, List, Bool, true, ◌/◌, ◌<◌, length, take};
ghost use Rattle.narrowing.specs.Narrowing.{rising, distinct, listed as isListed};
ghost use Rattle.list.specs.Bits.{EndsBefore};
ghost use Rattle.dictionary.specs.Inner.{Rises, Apart, Met, Taken, IsWrong};
ghost use Rattle.dictionary.specs.Taking.{rising_taken, distinct_taken};

use entries::Counted;
use entries::reading::first_wrong_listed;
use list::bits::{add_distinct, add_rising};
use token::refusal::Refusal;

pub trait Form {
    // the test of a list over the line count
    ghost valid: { ℕ → List ℕ → Bool };

    // what is known of the set of a list that passes: the line count, the list and the set
    ghost lists: { ℕ → List ℕ → List ℕ → Type 0 };

    // Says whether n is within the list and its first n entries pass. If so, they are added to a set that has none.
    fn add(list: &[u16], n: usize, count: usize, bits: &mut [u8]) -> bool
        requires { (count / 8 < length bits.old) × EndsBefore 1 bits.old }
        ensures passes { result ≡ isListed (valid count) list.now n }
        ensures long { length bits.new ≡ length bits.old }
        ensures lists { result ≡ true → lists count (take n list.now) bits.new };

    // The refusal of the first bad line in list order, where the walk in line order met one.
    fn refusal_of(book: Counted, list: &[u16], n: usize, listed: &[u8], met: Refusal) -> Refusal
        requires { Met valid lists book.set book.dict.now book.lines list.now n listed.now met }
        ensures { IsWrong book.entry.set book.entry.dict.now (take n list.now) result };

    ghost taken: { Taken valid lists };
}

// A list that rises: the two orders are one.
pub struct Rising;

impl Form for Rising {
    ghost valid = { rising };

    ghost lists = { Rises };

    ghost taken = { rising_taken };

    fn add(list: &[u16], n: usize, count: usize, bits: &mut [u8]) -> bool {
        add_rising(list, n, count, bits)
    }

    fn refusal_of(
        _book: Counted,
        _list: &[u16],
        _n: usize,
        _listed: &[u8],
        met: Refusal,
    ) -> Refusal {
        met
    }
}

// A list in any order.
pub struct InAnyOrder;

impl Form for InAnyOrder {
    ghost valid = { distinct };

    ghost lists = { Apart };

    ghost taken = { distinct_taken };

    fn add(list: &[u16], n: usize, count: usize, bits: &mut [u8]) -> bool {
        add_distinct(list, n, count, bits)
    }

    fn refusal_of(book: Counted, list: &[u16], n: usize, listed: &[u8], met: Refusal) -> Refusal {
        match first_wrong_listed(book, list, n, listed) {
            None => met,
            Some(wrong) => Refusal::LineWrong(wrong),
        }
    }
}
