// Arranging a lent list of entry numbers by the temporal prefixes of their lines (document 02, Q-12): a merge sort that halves a part
// of the list and the same part of a spare list, and calls itself on each.
ghost use Rattle.std.specs.Prelude.{◌≡◌, ◌++◌, ◌≤◌, length, take, drop, replicate};
ghost use Rattle.arrangement.specs.Arranged.{arranged, merge};
ghost use Rattle.mergesort.specs.Inner.{before};

use charset::Charset;
use linetable::table::Starts;
use prefixes::order::prefix_before;

// The order of entries: by the prefixes at the places that the table has for them.
#[derive(Clone, Copy)]
pub struct Order<'a> {
    pub set: Charset,
    pub starts: Starts<'a>,
}

impl Order<'_> {
    // Whether entry a comes before entry b.
    fn comes_before(&self, a: u16, b: u16) -> bool
        ensures { result ≡ before self.now a b }
    {
        let i = self.starts.of(a);
        let j = self.starts.of(b);
        prefix_before(self.set, self.starts.dict, i, j)
    }
}

// Copies the first n entries of a list to the front of another. A loop, since `copy_from_slice` between two lent memories calls memmove,
// which an archive for C would then need from outside.
fn copy_front(from: &[u16], n: usize, to: &mut [u16])
    requires { (n ≤ length from.now) × (n ≤ length to.old) }
    ensures { to.new ≡ take n from.now ++ drop n to.old }
{
    for i in 0..n {
        to[i] = from[i];
    }
}

// Merges the first h entries of a list with those after them. The first h wait in the spare list, so that the list is written from
// its front; what the spare list holds then is free.
fn merge_parts(order: &Order<'_>, list: &mut [u16], h: usize, spare: &mut [u16])
    requires { (h ≤ length list.old) × (h ≤ length spare.old) }
    ensures { list.new ≡ merge (before order.now) (take h list.old) (drop h list.old) }
{
    copy_front(list, h, spare);
    let mut i: usize = 0;
    let mut j = h;
    let mut k: usize = 0;
    // two cursors: the prefixes say which of them moves
    while i < h {
        let a = spare[i];
        if j < list.len() {
            let b = list[j];
            if order.comes_before(b, a) {
                list[k] = b;
                j += 1;
                k += 1;
                continue;
            }
        }
        list[k] = a;
        i += 1;
        k += 1;
    }
}

// Arranges a list: halves it, arranges each half the same way and merges the two.
fn arrange_part(order: &Order<'_>, list: &mut [u16], spare: &mut [u16])
    requires { length list.old ≤ length spare.old }
    ensures { list.new ≡ arranged (before order.now) list.old }
{
    let n = list.len();
    if n < 2 {
        return;
    }
    let h = n / 2;
    arrange_part(order, &mut list[..h], &mut spare[..h]);
    arrange_part(order, &mut list[h..], &mut spare[h..]);
    merge_parts(order, list, h, spare);
}

// Arranges a list, with a spare list that then holds zeros in as many places.
pub fn arrange_entries(order: &Order<'_>, list: &mut [u16], spare: &mut [u16])
    requires { length list.old ≤ length spare.old }
    ensures list_after { list.new ≡ arranged (before order.now) list.old }
    ensures spare_after { spare.new ≡ replicate (length list.old) 0 ++ drop (length list.old) spare.old }
{
    let n = list.len();
    arrange_part(order, list, &mut spare[..n]);
    spare[..n].fill(0);
}
