// Items of the signbox or of the prefix, into the words of a query: every item is read and counted, and kept while there is room.
ghost use Rattle.std.specs.Prelude.{◌≡◌, ◌+◌, ◌^◌, ◌≤◌, length};
ghost use Rattle.querypart.specs.Inner.{row_slot, item, OneIn, ItemsIn};

use super::alternatives::{Listed, Part, put_three};
use queryitem::words::{FIRST_ROW, MOST_ALTERNATIVES, ROW};
use token::refusal::Refusal;

// How many items were read, the offset after them, that of the first reversed range, whether one has more than eight
// alternatives, and the offset after their rows.
#[derive(Clone, Copy)]
pub struct Count {
    pub next: usize,
    pub count: usize,
    pub reversed: Option<usize>,
    pub crowded: bool,
    pub row: usize,
}

// Where the next row is put: after those before it or, where there is no room, over the first.
fn row_slot(row: usize, room: usize) -> usize
    requires { (row ≤ room) × (room + 64 ≤ 2 ^ 64) }
    ensures { result ≡ row_slot row room }
{
    if row + ROW <= room { row } else { FIRST_ROW }
}

impl Part {
    // An item with its alternatives and, in the signbox, their coordinate, as the row at an offset.
    fn row_into(self, s: &[u8], at: usize, words: &mut [u16], row: usize) -> Result<Listed, Refusal>
        requires { (at ≤ length s.now) × (row + 27 ≤ length words.old) }
        ensures { OneIn (item self.edition self.boxed) s.now at row result words.old words.new }
    {
        let listed = self.alternatives_into(s, at, words, row + 3)?;
        // `as`: at most 8
        let kept = listed.count.min(MOST_ALTERNATIVES) as u16;
        if !self.boxed {
            put_three(words, row, 0, 0, kept);
            return Ok(listed);
        }
        let (coordinate, next) = queryitem::coordinate::coordinate_at(
            s,
            listed.next,
            self.edition,
        )?;
        // in the words no coordinate is 0, 0
        let (x, y) = coordinate.unwrap_or((0, 0));
        put_three(words, row, x, y, kept);
        Ok(Listed { next, ..listed })
    }

    // Items as far as they go: all are counted, and their rows kept from an offset of the words on, as far as there is room.
    pub fn items_into(
        self,
        s: &[u8],
        at: usize,
        words: &mut [u16],
        from: usize,
    ) -> Result<Count, Refusal>
        requires { (at ≤ length s.now) × (31 ≤ length words.old) × (from ≤ length words.old) }
        ensures { ItemsIn self.edition self.boxed s.now at from result words.old words.new }
    {
        let mut items = Count {
            next: at,
            count: 0,
            reversed: None,
            crowded: false,
            row: from,
        };
        // an item says itself how many bytes it takes
        while items.next < s.len() {
            let here = row_slot(items.row, words.len());
            match self.row_into(s, items.next, words, here) {
                Ok(read) => {
                    items.next = read.next;
                    items.count += 1;
                    items.reversed = items.reversed.or(read.reversed);
                    items.crowded = items.crowded || MOST_ALTERNATIVES < read.count;
                    items.row = here + 3 + 3 * read.count.min(MOST_ALTERNATIVES);
                }
                Err(refusal) if refusal.is_wrong_at(items.next) => break,
                Err(refusal) => return Err(refusal),
            }
        }
        Ok(items)
    }
}
