// A query as one array of words, which every function that asks a query is lent:
//
//   kind  prefix items  signbox items  variance   then a row for each item, those of the prefix first:
//   x  y  alternatives                            then for each alternative:  lo  hi  turn
//
// Zeros follow the last row. The library has no heap, so the array has room for the longest query.

// Room for MOST_ITEMS prefix items and MOST_ITEMS signbox items of MOST_ALTERNATIVES each: 4 + 64 * ROW, and 21 more, since a
// row is read where the longest has room, though it may be the shortest.
pub const WORDS: usize = 1753;

pub const MOST_ITEMS: usize = 32;

pub const MOST_ALTERNATIVES: usize = 8;

// The offset of the first row, and the words of the longest.
pub const FIRST_ROW: usize = 4;

pub const ROW: usize = 27;

// What condition 0 asks of the prefix, as a word: nothing, that there is one, or that it begins with items. The
// reader of queries has an enum, of which these are the numbers; who asks a query reads them in the memory.
pub const FREE: u16 = 0;

pub const PRESENT: u16 = 1;

pub const BEGINS: u16 = 2;
