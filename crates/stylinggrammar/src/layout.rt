// Where the record of a styling holds each part, as specs/Record says.

pub const COLORIZE: usize = 0;

pub const PADDING: usize = 1;

pub const ZOOM: usize = 2;
// how many detail colours there are, and how many symbol styles
pub const DETAILS: usize = 3;

pub const STYLES: usize = 4;
// a colour is its length and then its bytes
pub const BACKGROUND: usize = 5;

pub const DETAIL: usize = 30;

pub const COLOUR: usize = 25;
// a row for each symbol style: its kind, the symbol's number, its zoom and two colours
pub const FIRST_ROW: usize = 80;

pub const ROW: usize = 53;

pub const ROW_NUMBER: usize = 1;

pub const ROW_ZOOM: usize = 2;

pub const ROW_DETAIL: usize = 3;

pub const ROW_FILL: usize = 28;

// the kinds of a row, which are numbers of the record that C lends
pub const COLOURED: u16 = 1;

pub const ZOOMED: u16 = 2;
// what a record has room for
pub const MOST_LETTERS: usize = 24;

pub const MOST_STYLES: u16 = 64;
// how many symbol styles a draft has room for: few stylings have more
pub const DRAFTED: u16 = 8;
// the numbers of a draft, and of a record
pub const DRAFT: usize = 504;

pub const RECORD: usize = 3472;
// the bytes of the longest text of a styling
pub const LONGEST: usize = 3547;
