// Name numbers sorted by their bytes, by merging: the order in which unused labels are reported.
#![tactic(auto)]

ghost use Rattle.std.specs.Prelude.{◌≡◌, ◌+◌, ◌≤◌, ◌<◌, length, take, drop};
ghost use Rattle.rules.specs.Names.{name_bytes, bytes_before};
ghost use Rattle.sorting.specs.Sorted.{Sorted, SameElements};
ghost use Rattle.sorting.specs.Merging.{Next};

use names::{NameNumber, Names, order};

// Whether the bytes of name `a` come before those of name `b`.
fn name_before(names: Names<'_, '_>, a: u16, b: u16) -> bool
    ensures { result ≡ bytes_before (name_bytes names.entry.pairs.now names.entry.bytes.now a) (name_bytes names.entry.pairs.now names.entry.bytes.now b) }
{
    let x = names.bytes_of(NameNumber(usize::from(a)));
    let y = names.bytes_of(NameNumber(usize::from(b)));
    order::bytes_before(x, y)
}

// Whether the next number comes from the left part, whose numbers from `i` up to `mid` are left, and
// not from the right one, whose numbers from `j` on are left.
fn takes_left(names: Names<'_, '_>, numbers: &[u16], mid: usize, i: usize, j: usize) -> bool
    requires mid_in_bounds { (mid ≤ length numbers.now) × (i ≤ mid) × (j ≤ length numbers.now) × (i + j < mid + length numbers.now) }
    ensures { Next names.entry.pairs.now names.entry.bytes.now numbers.now mid i j result }
{
    if i == mid {
        return false;
    }
    if j == numbers.len() {
        return true;
    }
    !name_before(names, numbers[j], numbers[i])
}

// Merges the two sorted parts of `numbers`, up to `mid` and from it on, into `out`.
fn merge(names: Names<'_, '_>, numbers: &[u16], mid: usize, out: &mut [u16])
    requires mid_in_bounds { (mid ≤ length numbers.now) × (length out.old ≡ length numbers.now) }
    requires sorted { Sorted names.pairs.now names.bytes.now (take mid numbers.now) × Sorted names.pairs.now names.bytes.now (drop mid numbers.now) }
    ensures { Sorted names.entry.pairs.now names.entry.bytes.now out.new × SameElements numbers.now out.new }
{
    let mut i = 0;
    let mut j = mid;
    for next in out.iter_mut() {
        if takes_left(names, numbers, mid, i, j) {
            *next = numbers[i];
            i += 1;
        } else {
            *next = numbers[j];
            j += 1;
        }
    }
}

// Word by word: `copy_from_slice` has the archive for C ask for memmove from outside.
fn copy(from: &[u16], to: &mut [u16])
    requires { length to.old ≡ length from.now }
    ensures { to.new ≡ from.now }
{
    for i in 0..from.len() {
        to[i] = from[i];
    }
}

// Sorts name numbers by their bytes. `spare` is as long as `numbers`.
pub fn sort(names: Names<'_, '_>, numbers: &mut [u16], spare: &mut [u16])
    requires spare_len { length spare.old ≡ length numbers.old }
    ensures { Sorted names.entry.pairs.now names.entry.bytes.now numbers.new × SameElements numbers.old numbers.new }
{
    let n = numbers.len();
    if n < 2 {
        return;
    }
    let mid = n / 2;
    sort(names, &mut numbers[..mid], &mut spare[..mid]);
    sort(names, &mut numbers[mid..], &mut spare[mid..]);
    merge(names, numbers, mid, spare);
    copy(spare, numbers);
}
