// The rows of a region list whose records were read: each is read again from its bytes, by value, as often as it is wanted.
// Bounds of a number stay clauses here: the check finds them at each call, and a type around the number would be opened at each use.
ghost use Rattle.std.specs.Prelude.{◌≡◌, ◌+◌, ◌*◌, ◌≤◌, ◌<◌, length, is_ok};
ghost use Rattle.regions.specs.Order.{numbers, shared};
ghost use Rattle.automata.specs.Closed.{Ascends};
ghost use Rattle.automata.specs.Checks.{belowb, has};
ghost use Rattle.regions.specs.Values.{row_of, region_of};
ghost use Rattle.listed_rows.specs.Listed.{listed_bytes, HasRow, listed_row, listed_rows, Listed, Splits, place_of};
ghost use Rattle.listed_rows.specs.Ranked.{besideb};

use regions::clocks::Clocks;
use regions::region::Region;
use rows::row::{region_in, row_width, wide};

// The bytes of row i, counted from 0, of a list of rows of n clocks.
fn row_bytes(list: &[u8], n: usize, i: usize) -> &[u8]
    requires n_bound { n ≤ 4 }
    requires has_row { HasRow n list.now i }
    ensures bytes { result.now ≡ listed_bytes n list.now i }
    ensures all { length result.now ≡ 3 + 2 * n }
{
    let size = row_width(n);
    let at = 4 + i * size;
    &list[at..at + size]
}

// Row i.
pub fn row_at(list: &[u8], n: usize, i: usize) -> Region
    requires n_bound { n ≤ 4 }
    requires has_row { HasRow n list.now i }
    ensures { result ≡ region_of (listed_row n list.now i) }
{
    region_in(row_bytes(list, n, i), n)
}

// The location of row i.
pub fn location_at(list: &[u8], n: usize, i: usize) -> u8
    requires n_bound { n ≤ 4 }
    requires has_row { HasRow n list.now i }
    ensures { result ≡ (listed_row n list.now i).location }
{
    row_bytes(list, n, i)[2]
}

// How many numbers of row i and of a region are the same before they differ. A row's numbers stand in its bytes, after the mark, in the order
// in which regions are compared, so nothing is copied.
pub fn shared_with(list: &[u8], n: usize, i: usize, wanted: Region) -> usize
    requires n_bound { n ≤ 4 }
    requires has_row { HasRow n list.now i }
    ensures { result ≡ shared (numbers (listed_row n list.now i)) (numbers (row_of n wanted)) }
{
    let bytes = row_bytes(list, n, i);
    let all = 1 + 2 * n;
    (0..all)
        .find(|&j| wide(bytes[2 + j]) != wanted.number(n, j))
        .unwrap_or(all)
}

// Whether row i comes before a region, where it is known how many of their numbers are the same.
pub(crate) fn comes_below(list: &[u8], n: usize, i: usize, wanted: Region, same: usize) -> bool
    requires n_bound { n ≤ 4 }
    requires has_row { HasRow n list.now i }
    requires same_value { same ≡ shared (numbers (listed_row n list.now i)) (numbers (row_of n wanted)) }
    ensures { result ≡ belowb (listed_row n list.now i) (row_of n wanted) }
{
    same < 1 + 2 * n && wide(row_bytes(list, n, i)[2 + same]) < wanted.number(n, same)
}

// Whether row i comes before a region.
pub fn row_is_below(list: &[u8], n: usize, i: usize, wanted: Region) -> bool
    requires n_bound { n ≤ 4 }
    requires has_row { HasRow n list.now i }
    ensures { result ≡ belowb (listed_row n list.now i) (row_of n wanted) }
{
    let same = shared_with(list, n, i, wanted);
    comes_below(list, n, i, wanted, same)
}

// Whether row i has a region's location and intervals, whatever its ranks.
pub fn row_is_beside(list: &[u8], n: usize, i: usize, wanted: Region) -> bool
    requires n_bound { n ≤ 4 }
    requires has_row { HasRow n list.now i }
    ensures { result ≡ besideb (listed_row n list.now i) (row_of n wanted) }
{
    n < shared_with(list, n, i, wanted)
}

// Where to look next between low and high: at the hint, then from it in steps that double, then by halves. What is looked up mostly stands
// near what was looked up before.
pub(crate) fn guess(low: usize, high: usize, hint: usize) -> usize
    requires { low < high }
    ensures { (low ≤ result) × (result < high) }
{
    if hint < low {
        let step = low - hint - 1;
        if step < high - low {
            return low + step;
        }
        return low + (high - low) / 2;
    }
    if hint < high {
        return hint;
    }
    let step = hint - high;
    if step < high - low {
        return high - 1 - step;
    }
    low + (high - low) / 2
}

// The rows from start to before end.
#[derive(Clone, Copy)]
pub struct Span {
    pub start: usize,
    pub end: usize,
}
