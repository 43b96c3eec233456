// Reading a zoom: digits, and perhaps a point and digits.
ghost use Rattle.std.specs.Prelude.{◌≡◌, ◌≤◌, Bool, true, false, length};
ghost use Rattle.stylinggrammar.specs.Styling.{decimal};
ghost use Rattle.stylingreader.specs.Parts.{PartIn};
ghost use Rattle.stylingreader.specs.Takings.{with_digit, few_digits, figures_part, FiguresIn, ZoomPut, take_zoom};

use super::part::{Part, missing, put, stands};
use token::refusal::Refusal;

// The digits before the point, or those after it.
trait Figures {
    ghost decimals: { Bool };

    // What n digits come to with a digit more.
    fn with_digit(v: u16, n: usize, d: u16) -> u16
        requires { (v ≤ 100) × (d ≤ 9) }
        ensures { result ≡ with_digit decimals v n d };

    fn are_few(n: usize) -> bool
        ensures { result ≡ few_digits decimals n };
}

// A number above 100 counts as 100.
struct Wholes;

// Hundredths, of which two digits count.
struct Hundredths;

impl Figures for Wholes {
    ghost decimals = { false };

    #[tactic(auto, unfolding(crate::specs::Takings::with_digit))]
    fn with_digit(v: u16, _n: usize, d: u16) -> u16 {
        (v * 10 + d).min(100)
    }

    #[tactic(auto, unfolding(crate::specs::Takings::few_digits))]
    fn are_few(_n: usize) -> bool {
        true
    }
}

impl Figures for Hundredths {
    ghost decimals = { true };

    #[tactic(auto, unfolding(crate::specs::Takings::with_digit))]
    fn with_digit(v: u16, n: usize, d: u16) -> u16 {
        match n {
            0 => d * 10,
            1 => v + d,
            _ => v,
        }
    }

    #[tactic(auto, unfolding(crate::specs::Takings::few_digits))]
    fn are_few(n: usize) -> bool {
        n <= 2
    }
}

#[tactic(auto, unfolding(crate::specs::Takings::figures_part))]
fn figures_end<F: Figures>(s: &[u8], at: usize, i: usize, v: u16) -> Result<Part, Refusal>
    ensures { result ≡ figures_part s.now at i v F.decimals }
{
    if i <= at {
        return Err(missing(s, at));
    }
    Ok(Part {
        zooms: F::are_few(i - at),
        place: i,
        names: true,
        amount: v,
    })
}

// One or more digits.
fn figures_at<F: Figures>(s: &[u8], at: usize) -> Result<Part, Refusal>
    requires { at ≤ length s.now }
    ensures { FiguresIn F.decimals s.now at result }
{
    let mut v: u16 = 0;
    for i in at..s.len() {
        let b = s[i];
        if !b.is_ascii_digit() {
            return figures_end::<F>(s, at, i, v);
        }
        v = F::with_digit(v, i - at, u16::from(b - b'0'));
    }
    figures_end::<F>(s, at, s.len(), v)
}

// A zoom in hundredths, with at most two decimals or not: it is 0.01 to 99.99.
#[tactic(auto, unfolding(crate::specs::Takings::zoom_part))]
fn put_zoom(to: &mut [u16], i: usize, place: usize, word: u16, few: bool) -> Part
    ensures { ZoomPut place i word few result to.old to.new }
{
    put(to, i, word);
    Part {
        zooms: few & (1..=9999).contains(&word),
        place,
        names: true,
        amount: 0,
    }
}

pub fn zoom_at(s: &[u8], at: usize, to: &mut [u16], i: usize) -> Result<Part, Refusal>
    requires { at ≤ length s.now }
    ensures { PartIn decimal (take_zoom i) s.now at result to.old to.new }
{
    let whole = figures_at::<Wholes>(s, at)?;
    let point = whole.place;
    if !stands(s, point, b'.') {
        return Ok(put_zoom(to, i, point, whole.amount * 100, true));
    }
    let cents = figures_at::<Hundredths>(s, point + 1)?;
    Ok(put_zoom(
        to,
        i,
        cents.place,
        whole.amount * 100 + cents.amount,
        cents.zooms,
    ))
}
