// Moving the numbers of a sign that lies in memory, and writing it.
ghost use Rattle.std.specs.Prelude.{◌≡◌, ◌≤◌};
ghost use Rattle.grammar.specs.Sign.{sign_text};
ghost use Rattle.token.specs.Result.{on_done, as_written, written, output};
ghost use Rattle.writer.specs.Arrays.{meaning_in};
ghost use Rattle.moving.specs.Moves.{moved_sign, to_middle};
ghost use Rattle.moving.specs.Inner.{number_or_outside, moved_axis, Coded};

use charset::Charset;
use grammar::{Head, Symbols};
use token::reading::{GREATEST_NUMBER, LEAST_NUMBER};
use token::refusal::Refusal;

// By `as`: a const can't call From.
const LEAST: i64 = LEAST_NUMBER as i64;

const GREATEST: i64 = GREATEST_NUMBER as i64;

// What an axis moves by: 500 minus the centre rounded down.
pub fn to_middle(doubled: u32) -> i64
    ensures { result ≡ to_middle doubled }
{
    500 - i64::from(doubled / 2)
}

// A number that is moved, where it stays in 250 to 749. A sum that no i64 holds is far outside.
fn move_number(n: u16, by: i64) -> Result<u16, Refusal>
    ensures { result ≡ number_or_outside by n }
{
    let number = i64::from(n).saturating_add(by);
    let stays = LEAST <= number && number <= GREATEST;
    if !stays {
        return Err(Refusal::NumberOutside);
    }
    // `as`: 250 to 749 fit
    Ok(number as u16)
}

// The numbers of an axis after a move.
#[derive(Clone, Copy)]
pub struct Moved {
    pub most: u16,
    pub values: [u16; 64],
}

// The maximum and the first n numbers of an axis.
fn move_axis(by: i64, most: u16, n: usize, values: &[u16; 64]) -> Result<Moved, Refusal>
    requires { n ≤ 64 }
    ensures { result ≡ moved_axis by most n values.now }
{
    let end = move_number(most, by)?;
    let mut next = *values;
    for i in 0..n {
        next[i] = move_number(values[i], by)?;
    }
    Ok(Moved {
        most: end,
        values: next,
    })
}

// Moves every number of a sign, and writes it: refused as 10, then 6.
pub fn write_moved(
    set: Charset,
    head: Head,
    symbols: &Symbols,
    x: i64,
    y: i64,
    out: &mut [u8],
) -> Result<usize, Refusal>
    requires { (head.prefix_count ≤ 32) × (head.symbol_count ≤ 64) × Coded (meaning_in head symbols.now) }
    ensures answer { as_written result ≡ written out.old (on_done (sign_text set) (moved_sign x y (meaning_in head symbols.now))) }
    ensures memory { out.new ≡ output out.old (on_done (sign_text set) (moved_sign x y (meaning_in head symbols.now))) }
{
    let across = move_axis(x, head.max_x, head.symbol_count, &symbols.xs)?;
    let down = move_axis(y, head.max_y, head.symbol_count, &symbols.ys)?;
    let moved_head = Head {
        max_x: across.most,
        max_y: down.most,
        ..head
    };
    let xs = across.values;
    let ys = down.values;
    let moved_symbols = Symbols { xs, ys, ..*symbols };
    writer::arrays::write_sign(set, moved_head, &moved_symbols, out)
}
