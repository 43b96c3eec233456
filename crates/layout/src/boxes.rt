// The boxes of a sign and twice its centre as 19 numbers.
ghost use Rattle.std.specs.Prelude.{◌≡◌};
ghost use Rattle.geometry.specs.Geometry.{as_bounds};
ghost use Rattle.layout.specs.Layouts.{bounds_numbers};

use super::numbers::refused;
use geometry::Bounds;
use token::refusal::Refusal;

// Bounds in the order of halofret_boxes.
pub fn bounds_numbers(r: Result<Bounds, Refusal>) -> [u64; 19]
    ensures { result ≡ bounds_numbers (as_bounds r) }
{
    match r {
        Ok(b) => {
            let [head, body, all] = b.groups.boxes;
            let [has_head, has_body, has_any] = b.groups.present;
            [
                0,
                0,
                u64::from(has_head),
                u64::from(head.left),
                u64::from(head.top),
                u64::from(head.right),
                u64::from(head.bottom),
                u64::from(has_body),
                u64::from(body.left),
                u64::from(body.top),
                u64::from(body.right),
                u64::from(body.bottom),
                u64::from(has_any),
                u64::from(all.left),
                u64::from(all.top),
                u64::from(all.right),
                u64::from(all.bottom),
                u64::from(b.doubled.x),
                u64::from(b.doubled.y),
            ]
        }
        Err(e) => refused(e),
    }
}
