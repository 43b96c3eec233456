// The centre of each axis.
ghost use Rattle.std.specs.Prelude.{◌≡◌, ◌<◌, ◌^◌};
ghost use Rattle.bounds.specs.Centre.{chosen_box, half as half_of};
ghost use Rattle.bounds.specs.Inner.{Doubles};

use crate::groups::{ALL, Box, Groups, HEAD, HEAD_WITH_TRUNK};

// The group that serves each axis, where it has a symbol.
const HORIZONTAL: usize = HEAD;

const VERTICAL: usize = HEAD_WITH_TRUNK;

// Twice the centre of each axis.
#[derive(Clone, Copy)]
pub struct Doubled {
    pub x: u32,
    pub y: u32,
}

// The box of a group, or of all symbols where it has none.
fn chosen(groups: Groups, group: usize) -> Box
    requires { group < 3 }
    ensures { result ≡ chosen_box groups group }
{
    if groups.present[group] {
        return groups.boxes[group];
    }
    groups.boxes[ALL]
}

pub fn doubled_centre(groups: Groups) -> Doubled
    ensures { Doubles groups result }
{
    let across = chosen(groups, HORIZONTAL);
    let down = chosen(groups, VERTICAL);
    Doubled {
        x: u32::from(across.left) + u32::from(across.right),
        y: u32::from(down.top) + u32::from(down.bottom),
    }
}

// Half of a whole number, exactly.
pub fn half(doubled: u32) -> f32
    requires { doubled < 2 ^ 24 }
    ensures { result ≡ half_of doubled }
{
    (doubled as f32) * 0.5
}
