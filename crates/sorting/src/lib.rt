// Words in dictionary order: the entry `sort` (document 02, Q-12).
#![tactic(auto)]

ghost use Rattle.std.specs.Prelude.{◌≡◌, ◌++◌, length, take, drop, replicate};
ghost use Rattle.token.specs.Result.{outcome};
ghost use Rattle.lines.specs.Lines.{lines as lines_of};
ghost use Rattle.arrangement.specs.Arranged.{arranged};
ghost use Rattle.books.specs.Book.{book_of};
ghost use Rattle.books.specs.Sorting.{entry_before, sorted_in, list_after, spare_after};
ghost use Rattle.sorting.specs.Sorting.{sorted, sorted_as, as_sorted};
ghost use Rattle.sorting.specs.Inner.{lines_or, Ready};

use charset::Charset;
use entries::Counted;
use entries::reading::first_wrong_listed;
use lines::checked::count_lines;
use linetable::table::{BLOCKS, PLACES, Starts, place_lines};
use list::bits::{BYTES, add_distinct};
use mergesort::parts::{Order, arrange_entries};
use token::refusal::Refusal;

// How many lines the dictionary has. Checks all that a sort is refused for, with a second list of so many places, and writes nothing.
fn check_call(
    set: Charset,
    dict: &[u8],
    list: &[u16],
    n: usize,
    room: usize,
) -> Result<usize, Refusal>
    ensures { outcome result ≡ lines_or (length (lines_of dict.now)) (sorted_in (book_of (set, dict.now)) list.now n room) }
{
    let lines = count_lines(dict)?;
    let book = Counted { set, dict, lines };
    let mut listed = [0u8; BYTES];
    if !add_distinct(list, n, lines, &mut listed) {
        return Err(Refusal::ListWrong);
    }
    if let Some(wrong) = first_wrong_listed(book, list, n, &listed) {
        return Err(Refusal::LineWrong(wrong));
    }
    if room < n {
        return Err(Refusal::RoomShort(n));
    }
    Ok(lines)
}

// Arranges the first n entries by a table of where the lines start.
fn arrange_listed(
    set: Charset,
    dict: &[u8],
    lines: usize,
    list: &mut [u16],
    n: usize,
    spare: &mut [u16],
)
    requires { Ready set dict.now list.old n (length spare.old) lines }
    ensures list_after { list.new ≡ arranged (entry_before (book_of (set, dict.now))) (take n list.old) ++ drop n list.old }
    ensures spare_after { spare.new ≡ replicate n 0 ++ drop n spare.old }
{
    let mut bases = [0usize; BLOCKS];
    let mut offsets = [0u16; PLACES];
    place_lines(dict, lines, &mut bases, &mut offsets);
    let starts = Starts {
        dict,
        bases: &bases,
        offsets: &offsets,
    };
    arrange_entries(&Order { set, starts }, &mut list[..n], &mut spare[..n]);
}

// Rearranges the first n entries of the list by the temporal prefixes of their signs, with a second list of at least n places, whose
// first n then hold zeros: refused as 12, 14, 11, 13, then as 6 with n.
pub fn sort(
    set: Charset,
    dict: &[u8],
    list: &mut [u16],
    n: usize,
    spare: &mut [u16],
) -> Result<(), Refusal>
    ensures answer { as_sorted result ≡ sorted_as (sorted set dict.now list.old n spare.old) }
    ensures memory { list.new ≡ list_after list.old n (sorted set dict.now list.old n spare.old) }
    ensures second { spare.new ≡ spare_after spare.old n (sorted set dict.now list.old n spare.old) }
{
    let lines = check_call(set, dict, list, n, spare.len())?;
    arrange_listed(set, dict, lines, list, n, spare);
    Ok(())
}
