// A set of entries in 1 to 65,535 in lent bytes, one bit for each: entry e is bit e % 8 of byte e / 8.
// No struct of 8,192 bytes: a caller may lend a set of any length, and a count of entries beside a longer list. That a set has no
// entries is asked for by a clause, since it is no invariant: entries are then added.
ghost use Rattle.std.specs.Prelude.{◌≡◌, ◌++◌, false, ◌+◌, ◌/◌, ◌%◌, ◌^◌, ◌≤◌, ◌<◌, length, get_or, take, drop, set as set_at};
ghost use Rattle.format.specs.Format.{All, keep};
ghost use Rattle.narrowing.specs.Narrowing.{up_to, rising, distinct, listed, filled};
ghost use Rattle.list.specs.Bits.{bit_of, EndsBefore, Lists, ListsApart, first_passing};

// The bytes of a set of any entries, and one that has all eight of its entries.
pub const BYTES: usize = 8192;

pub const ALL: u8 = 255;

// Whether the set has an entry.
pub fn has(bits: &[u8], e: usize) -> bool
    requires { e / 8 < length bits.now }
    ensures { result ≡ bit_of bits.now e }
{
    (bits[e / 8] >> (e % 8)) % 2 == 1
}

// Adds an entry to a set that does not have it.
pub fn add(bits: &mut [u8], e: usize)
    requires { (e / 8 < length bits.old) × (bit_of bits.old e ≡ false) }
    ensures { bits.new ≡ set_at bits.old (e / 8) (get_or bits.old (e / 8) 0 + 2 ^ (e % 8)) }
{
    let bit: u8 = 1 << (e % 8);
    bits[e / 8] += bit;
}

// Says whether n is within the list and its first n entries rise strictly in 1 to count. If so, they are added to a set that has none.
pub fn add_rising(list: &[u16], n: usize, count: usize, bits: &mut [u8]) -> bool
    requires { (count / 8 < length bits.old) × EndsBefore 1 bits.old }
    ensures rises { result ≡ listed (rising count) list.now n }
    ensures lists { Lists result count (take n list.now) bits.old bits.new }
{
    if list.len() < n {
        return false;
    }
    let mut last: usize = 0;
    for entry in &list[..n] {
        let e = usize::from(*entry);
        let past = count < e;
        if e <= last || past {
            return false;
        }
        add(bits, e);
        last = e;
    }
    true
}

// Says whether n is within the list and its first n entries are in 1 to count, none twice. If so, they are added to a set that has none.
pub fn add_distinct(list: &[u16], n: usize, count: usize, bits: &mut [u8]) -> bool
    requires { (count / 8 < length bits.old) × EndsBefore 1 bits.old }
    ensures apart { result ≡ listed (distinct count) list.now n }
    ensures lists { ListsApart result count (take n list.now) bits.old bits.new }
{
    if list.len() < n {
        return false;
    }
    for i in 0..n {
        let e = usize::from(list[i]);
        let zero = e == 0;
        if zero || count < e || has(bits, e) {
            return false;
        }
        add(bits, e);
    }
    true
}

// The first of the first n entries that the set has.
pub fn first_of(list: &[u16], n: usize, bits: &[u8]) -> Option<usize>
    requires { (n ≤ length list.now) × All (λ e. e / 8 < length bits.now) (take n list.now) }
    ensures { result ≡ first_passing (bit_of bits.now) (take n list.now) }
{
    for entry in &list[..n] {
        let e = usize::from(*entry);
        if has(bits, e) {
            return Some(e);
        }
    }
    None
}

// Writes those of entries 1 to n that the set has in front.
pub fn write_entries(list: &mut [u16], bits: &[u8], n: usize)
    requires { (n ≤ 65535) × (n / 8 < length bits.now) × (length (keep (bit_of bits.now) (up_to n)) ≤ length list.old) }
    ensures { list.new ≡ keep (bit_of bits.now) (up_to n) ++ drop (length (keep (bit_of bits.now) (up_to n))) list.old }
{
    let mut k: usize = 0;
    for e in 0..n {
        if has(bits, e + 1) {
            // `as`: at most n
            list[k] = (e + 1) as u16;
            k += 1;
        }
    }
}

// Keeps those of the first n entries that the set has, in order, with zeros after them up to n; returns their number. The list is written
// while it is read, so that no iterator can hold it.
pub fn compact(list: &mut [u16], n: usize, bits: &[u8]) -> usize
    requires { (n ≤ length list.old) × All (λ e. e / 8 < length bits.now) (take n list.old) }
    ensures value { result ≡ length (keep (bit_of bits.now) (take n list.old)) }
    ensures list_after { list.new ≡ filled n (keep (bit_of bits.now) (take n list.old)) (drop n list.old) }
{
    let mut k: usize = 0;
    for i in 0..n {
        let entry = list[i];
        list[i] = 0;
        if has(bits, usize::from(entry)) {
            list[k] = entry;
            k += 1;
        }
    }
    k
}
