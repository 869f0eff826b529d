// Where a region would stand that a region list lacks, of those that an edge leads to: a hint where to look for one, of which nothing is promised.
// Bounds of a number stay clauses here: the check finds them at each call, and a type around the number would be opened at each use.
ghost use Rattle.std.specs.Prelude.{◌+◌, ◌*◌, ◌≤◌, length};
ghost use Rattle.automata.specs.Row.{IsRow};
ghost use Rattle.regions.specs.Values.{bounds_of, row_of};
ghost use Rattle.calls.specs.RegionFile.{row_width};
ghost use Rattle.edge_walk.specs.Stand.{Standing};
ghost use Rattle.edge_walk.specs.Intervals.{Chosen};

use crate::inside::all_inside;
use edge_walk::search::Search;
use edge_walk::stand::{Stand, start_in};
use edge_walk::way::open_way;
use listed_rows::edge_in_list::EdgeInList;
use listed_rows::listed::{Span, row_is_below, row_is_beside};
use regions::region::Region;

// The first row from k to before end that is not below a region, or end.
fn first_from(list: &[u8], n: usize, k: usize, end: usize, wanted: Region) -> usize
    requires n_bound { n ≤ 4 }
    requires n_in_bounds { 4 + end * row_width n ≤ length list.now }
    requires k_le_end { (k ≤ end) × (end ≤ 4096) }
    ensures { result ≤ end }
{
    (k..end)
        .find(|i| !row_is_below(list, n, *i, wanted))
        .unwrap_or(end)
}

// Where a row of the part's intervals would stand, if there is none: row `at`, which is the first that is not below the part; else past the end.
fn part_gap(list: &[u8], n: usize, at: usize, end: usize, part: Region) -> usize
    requires n_bound { n ≤ 4 }
    requires n_in_bounds { 4 + end * row_width n ≤ length list.now }
    requires at_le_end { (at ≤ end) × (end ≤ 4096) }
    ensures { result ≤ 4097 }
{
    if at < end && row_is_beside(list, n, at, part) {
        end + 1
    } else {
        at
    }
}

// Where a row would stand of the first intervals that a walk over intervals alone chooses and that no row of the target has; or past the end. Both ascend,
// so each row is passed once; and there are no more choices before that than rows.
fn interval_gap(list: &[u8], search: Search, start: Stand, into: Span) -> usize
    requires standing { Standing search start }
    requires chosen { Chosen search start }
    requires start_le_end { (into.start ≤ into.end) × (into.end ≤ 4096) }
    requires count_in_bounds { 4 + into.end * row_width search.clocks.count ≤ length list.now }
{
    let n = search.clocks.count as usize;
    let end = into.end;
    let mut stand = start;
    let mut k = into.start;
    while 0 < stand.depth {
        if stand.depth == 1 + n {
            let part = Region {
                ranks: [0; 4],
                ..stand.part
            };
            k = first_from(list, n, k, end, part);
            let gap = part_gap(list, n, k, end, part);
            if gap <= end {
                return gap;
            }
        }
        stand = search.step_intervals(stand);
    }
    end + 1
}

// Where a region would stand that the list lacks, of those that an edge leads to from this one: the first of which no row has the intervals, or else the
// first of all.
pub fn first_gap(edge: &EdgeInList, from: Region) -> usize
    requires row { IsRow (bounds_of edge.now.list.clocks) (row_of edge.now.list.clocks.count from) }
{
    let list = &edge.list;
    let into = edge.into;
    let Some(way) = open_way(list.clocks, from, edge.e) else {
        return 0;
    };
    let gap = interval_gap(list.bytes, way.search, start_in(way.target), into);
    if gap <= into.end {
        return gap;
    }
    match all_inside(list, way.search, start_in(way.target), 2 * list.count) {
        Ok(at) | Err(at) => at,
    }
}
