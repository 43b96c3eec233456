// The check of a dictionary before its lines are looked at (document 01, "Refusal numbers").
ghost use Rattle.std.specs.Prelude.{◌≡◌};
ghost use Rattle.token.specs.Result.{outcome};
ghost use Rattle.lines.specs.Checked.{line_count};

use super::walk::{MOST_LINES, count, is_ended};
use token::refusal::Refusal;

// How many lines a dictionary has: refused as 12 if it is not ended, then as 14 if they are too many.
pub fn count_lines(dict: &[u8]) -> Result<usize, Refusal>
    ensures { outcome result ≡ line_count dict.now }
{
    if !is_ended(dict) {
        return Err(Refusal::DictionaryUnended);
    }
    let n = count(dict);
    let many = MOST_LINES < n;
    if many {
        return Err(Refusal::TooMany);
    }
    Ok(n)
}
