// Whether a styling string reads as a record.
ghost use Rattle.std.specs.Prelude.{◌≡◌, length};
ghost use Rattle.styling.specs.Writing.{record_read, is_record};

use stylinggrammar::layout::RECORD;
use stylingreader::reading::styling_at;

pub fn reads_as(s: &[u8], w: &[u16]) -> bool
    requires { length w.now ≡ 3472 }
    ensures { result ≡ is_record w.now (record_read s.now) }
{
    let mut again = [0u16; RECORD];
    let read = styling_at(s, 0, &mut again);
    let again = again.as_slice();
    match read {
        Ok(found) => found.is_within_limits() && w == again,
        Err(_) => false,
    }
}
