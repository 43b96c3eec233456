// The grammar of a sign, once for both character sets: defined in specs/, with its laws in proofs/. A sign that is read lies in
// memory of fixed size.
#![tactic(auto)]

ghost use Rattle.std.specs.Prelude.{◌≡◌};
ghost use Rattle.grammar.specs.Memory.{no_symbols};

// The marker, 1 to 4 for B, L, M, R, the stated maximum, and how many symbols there are. The counts have no bound, since a text is read
// to its end before they are judged.
#[derive(Clone, Copy)]
pub struct Head {
    pub marker: u16,
    pub max_x: u16,
    pub max_y: u16,
    pub prefix_count: usize,
    pub symbol_count: usize,
}

// The codes of the prefix symbols, and the codes and coordinates of the signbox symbols. Places after the counts hold 0.
#[derive(Clone, Copy)]
pub struct Symbols {
    pub prefix: [u16; 32],
    pub codes: [u16; 64],
    pub xs: [u16; 64],
    pub ys: [u16; 64],
}

impl Symbols {
    // Room for every symbol, and none in it.
    pub fn none() -> Symbols
        ensures { result ≡ no_symbols }
    {
        Symbols {
            prefix: [0u16; 32],
            codes: [0u16; 64],
            xs: [0u16; 64],
            ys: [0u16; 64],
        }
    }
}
