// What a styling is made of.
ghost use Rattle.std.specs.Prelude.{◌≡◌, ◌≤◌, ◌<◌, ◌%◌, length};

// The bytes of a colour, each a number.
#[derive(Clone, Copy)]
pub struct Colour<'a> {
    pub letters: &'a [u16],
    ghost short: { length letters.now ≤ 24 },
}

// A line colour, and perhaps a fill colour.
#[derive(Clone, Copy)]
pub struct Detail<'a> {
    pub line: Colour<'a>,
    pub fill: Option<Colour<'a>>,
}

// A number of 0 to 99.
#[derive(Clone, Copy)]
pub struct TwoDigits {
    pub value: u16,
    ghost below: { value < 100 },
}

impl TwoDigits {
    pub fn of(n: u16) -> TwoDigits
        ensures { result.value ≡ n % 100 }
    {
        TwoDigits { value: n % 100 }
    }
}

// A zoom in hundredths.
#[derive(Clone, Copy)]
pub struct Zoom {
    pub hundredths: u16,
    ghost below: { hundredths < 10000 },
}

impl Zoom {
    pub fn of(n: u16) -> Zoom
        ensures { result.hundredths ≡ n % 10000 }
    {
        Zoom {
            hundredths: n % 10000,
        }
    }
}

// The style of a symbol, which it names by its number.
#[derive(Clone, Copy)]
pub enum Style<'a> {
    Coloured(TwoDigits, Detail<'a>),
    Zoomed(TwoDigits, Zoom),
}
