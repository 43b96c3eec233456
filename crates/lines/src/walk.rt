// A walk over the bytes of lines, from one byte 10 to the next.
ghost use Rattle.std.specs.Prelude.{◌≡◌, ◌+◌, ◌≤◌, min, length, take, drop};
ghost use Rattle.lines.specs.Lines.{lines, ended, first_line, line_of, line_start, place_in};

// of one dictionary
pub const MOST_LINES: usize = 65535;

// No bytes, or the last is 10.
pub fn is_ended(d: &[u8]) -> bool
    ensures { result ≡ ended d.now }
{
    let n = d.len();
    n == 0 || d[n - 1] == 10
}

// How many lines 64 bytes end. The compiler adds u8 counts for many bytes at a time.
fn count_block(d: &[u8], at: usize) -> u8
    requires { at + 64 ≤ length d.now }
    ensures { result ≡ length (lines (take 64 (drop at d.now))) }
{
    let mut n: u8 = 0;
    for j in 0..64 {
        if d[at + j] == 10 {
            n += 1;
        }
    }
    n
}

// How many lines there are: as many as bytes 10.
pub fn count(d: &[u8]) -> usize
    ensures { result ≡ length (lines d.now) }
{
    let blocks = d.len() / 64;
    let mut n: usize = 0;
    for k in 0..blocks {
        n += usize::from(count_block(d, 64 * k));
    }
    for i in 64 * blocks..d.len() {
        if d[i] == 10 {
            n += 1;
        }
    }
    n
}

// Where among 128 bytes a line ends: the offset of their first byte 10, or 128. The loop runs to its end, so that the compiler
// compares many bytes at a time; `as`, since the offset is below 128.
fn end_in_block(d: &[u8], at: usize) -> u8
    requires { at + 128 ≤ length d.now }
    ensures { result ≡ min 128 (length (first_line (drop at d.now))) }
{
    let mut first: u8 = 128;
    for j in 0..128 {
        let ten = if d[at + j] == 10 { j as u8 } else { 128 };
        first = ten.min(first);
    }
    first
}

// Where the line that starts at a ends: at its byte 10, or at the end of the bytes.
pub fn line_end(d: &[u8], a: usize) -> usize
    requires { a ≤ length d.now }
    ensures { result ≡ a + length (first_line (drop a d.now)) }
{
    let mut e = a;
    // a cursor that passes a block or a byte, until the bytes say that the line ends
    while e < d.len() {
        if 128 <= d.len() - e {
            let passed = usize::from(end_in_block(d, e));
            e += passed;
            if passed < 128 {
                return e;
            }
        } else {
            if d[e] == 10 {
                return e;
            }
            e += 1;
        }
    }
    e
}

// Where line k starts, given that line j, at or before it, starts at a.
pub fn start_from(d: &[u8], j: usize, a: usize, k: usize) -> usize
    requires { (1 ≤ j) × (j ≤ k) × (k ≤ length (lines d.now)) × (a ≡ line_start d.now j) }
    ensures { result ≡ line_start d.now k }
{
    let mut at = a;
    for _i in j..k {
        at = line_end(d, at) + 1;
    }
    at
}

// Where line k starts.
pub fn line_start(d: &[u8], k: usize) -> usize
    requires { (1 ≤ k) × (k ≤ length (lines d.now)) }
    ensures { result ≡ line_start d.now k }
{
    start_from(d, 1, 0, k)
}

// Line k, as the part of the bytes where it lies.
pub fn line(d: &[u8], k: usize) -> &[u8]
    requires { (1 ≤ k) × (k ≤ length (lines d.now)) }
    ensures bytes { result.now ≡ line_of d.now k }
    ensures place { result.ref_ptr ≡ place_in d.entry (line_start d.now k) }
{
    let a = line_start(d, k);
    let e = line_end(d, a);
    &d[a..e]
}
