// Reading one item of a query at an offset of a text, as three numbers, and a coordinate; and the words in which a query lies.
#![tactic(auto)]

pub mod coordinate;
pub mod item;
pub mod reading;
pub mod swu;
pub mod words;
