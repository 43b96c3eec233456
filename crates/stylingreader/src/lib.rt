// Reading a styling string. Only `reading` is for other crates. Functions take the text, an offset in it and the memory one by one, as
// those of token do: a struct of the three would be taken apart and made again at every part.
#![tactic(auto)]

mod colour;
mod part;
pub mod reading;
mod styles;
mod zoom;
