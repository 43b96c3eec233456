// Boxes, and one box for each of three groups.
ghost use Rattle.std.specs.Prelude.{◌≡◌, ◌+◌, ◌<◌, ◌≤◌, ◌^◌};
ghost use Rattle.bounds.specs.Boxes.{grown, base_in, no_groups};
ghost use Rattle.bounds.specs.Inner.{grown_at, with_symbol};

// The least x and y and the greatest x + width and y + height of some symbols.
#[derive(Clone, Copy, Default)]
pub struct Box {
    pub left: u16,
    pub top: u16,
    pub right: u16,
    pub bottom: u16,
}

impl Box {
    // The box of one symbol.
    pub fn new(x: u16, y: u16, width: u16, height: u16) -> Box
        requires { (x + width < 2 ^ 16) × (y + height < 2 ^ 16) }
        ensures { result ≡ record { left = x; top = y; right = x + width; bottom = y + height } }
    {
        Box {
            left: x,
            top: y,
            right: x + width,
            bottom: y + height,
        }
    }

    // The smallest box that holds both.
    pub fn grow(self, other: Box) -> Box
        ensures { result ≡ grown self other }
    {
        Box {
            left: self.left.min(other.left),
            top: self.top.min(other.top),
            right: self.right.max(other.right),
            bottom: self.bottom.max(other.bottom),
        }
    }
}

// The groups, by their places.
pub const HEAD: usize = 0;

pub const HEAD_WITH_TRUNK: usize = 1;

pub const ALL: usize = 2;

// The box of each group, and whether it has a symbol. A group without symbols has a box of zeros. Document 01, "Form by location", asks
// for an array of boxes with presence flags, and not for an Option of each.
#[derive(Clone, Copy)]
pub struct Groups {
    pub boxes: [Box; 3],
    pub present: [bool; 3],
}

impl Groups {
    pub fn none() -> Groups
        ensures { result ≡ no_groups }
    {
        Groups {
            boxes: [Box::default(); 3],
            present: [false; 3],
        }
    }

    // A group starts from its first symbol, and grows to take in the next.
    fn grown(self, group: usize, b: Box) -> Groups
        requires { group < 3 }
        ensures { result ≡ grown_at self group b }
    {
        let mut next = self;
        next.boxes[group] = if self.present[group] {
            self.boxes[group].grow(b)
        } else {
            b
        };
        next.present[group] = true;
        next
    }

    // Every group that a symbol belongs to takes in its box.
    pub fn with_symbol(self, code: u16, b: Box) -> Groups
        requires { 1 ≤ code }
        ensures { result ≡ with_symbol self code b }
    {
        let all = self.grown(ALL, b);
        if base_in(code, 0x2ff, 0x36c) {
            return all.grown(HEAD_WITH_TRUNK, b).grown(HEAD, b);
        }
        if base_in(code, 0x36d, 0x375) {
            return all.grown(HEAD_WITH_TRUNK, b);
        }
        all
    }
}

// Whether the base of a symbol lies in a range, ends included.
fn base_in(code: u16, first: u16, last: u16) -> bool
    requires { 1 ≤ code }
    ensures { result ≡ base_in first last code }
{
    let base = 0x100 + (code - 1) / 96;
    first <= base && base <= last
}
