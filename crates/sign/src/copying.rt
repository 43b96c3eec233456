// Copying numbers.
ghost use Rattle.std.specs.Prelude.{◌≡◌, ◌+◌, ◌≤◌, length};
ghost use Rattle.std.proofs.Math.Seq.{paste};
ghost use Rattle.sign.specs.Inner.{Cleared, Counting};

// Copies numbers into an array from a place on.
pub fn put(to: &mut [u16], at: usize, from: &[u16])
    requires { at + length from.now ≤ length to.old }
    ensures { to.new ≡ paste to.old at from.now (length from.now) }
{
    to[at..at + from.len()].copy_from_slice(from);
}

// Copies an array that holds n numbers and then zeros into places that hold zeros. Mostly its first eight numbers are all; they go
// through an array of their own, so that the compiler reads them before it writes, and all at once.
pub fn put_counted(to: &mut [u16], at: usize, from: &[u16], n: usize)
    requires { Cleared to.old at (length from.now) × Counting n from.now × (8 ≤ length from.now) }
    ensures { to.new ≡ paste to.old at from.now (length from.now) }
{
    let mut eight = [0u16; 8];
    eight.copy_from_slice(&from[..8]);
    let places = &mut to[at..at + from.len()];
    places[..8].copy_from_slice(&eight);
    if 8 < n {
        places[8..].copy_from_slice(&from[8..]);
    }
}
