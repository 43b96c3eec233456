// Every entry, in the list.
ghost use Rattle.std.specs.Prelude.{◌≡◌, ◌++◌, ◌≤◌, length, drop};
ghost use Rattle.narrowing.specs.Narrowing.{up_to};

// Writes 1 to n in front. `as`: an entry is at most 65,535.
pub fn number_entries(list: &mut [u16], n: usize)
    requires { (n ≤ 65535) × (n ≤ length list.old) }
    ensures { list.new ≡ up_to n ++ drop n list.old }
{
    for e in 0..n {
        list[e] = (e + 1) as u16;
    }
}
