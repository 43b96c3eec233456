// A verdict as 36 numbers.
ghost use Rattle.std.specs.Prelude.{◌≡◌, ◌∷◌};
ghost use Rattle.matching.specs.Meets.{as_verdict};
ghost use Rattle.layout.specs.Layouts.{verdict_numbers};

use super::numbers::refused;
use matching::Verdict;
use token::refusal::Refusal;

// A query that is met: the witnesses behind the first four numbers.
fn met(witnesses: [u16; 32]) -> [u64; 36]
    ensures { result ≡ 0 ∷ 0 ∷ 1 ∷ 0 ∷ witnesses }
{
    let mut all = [0u64; 36];
    all[2] = 1;
    // a loop: by `map` the compiler takes the 32 one by one
    for i in 0..32 {
        all[4 + i] = u64::from(witnesses[i]);
    }
    all
}

// A verdict in the order of halofret_verdict.
pub fn verdict_numbers(v: Result<Verdict, Refusal>) -> [u64; 36]
    ensures { result ≡ verdict_numbers (as_verdict v) }
{
    match v {
        Ok(Verdict::Met(witnesses)) => met(witnesses),
        Ok(Verdict::Unmet(condition)) => {
            let mut all = [0u64; 36];
            all[3] = u64::from(condition);
            all
        }
        Err(e) => refused(e),
    }
}
