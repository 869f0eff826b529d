// From a row of a region list that lacks a next row by an edge to the first row that lacks the same. Which region that is is guessed: it counts if it is one of
// the target that the list lacks, and then each row that the edge leads to it from is open.
// Bounds of a number stay clauses here: the check finds them at each call, and a type around the number would be opened at each use.
// What joins two parameters stays a clause here: a type of both would be made anew for each call, and taken apart in it.
ghost use Rattle.std.specs.Prelude.{◌≡◌, true, ◌≤◌, ◌<◌};
ghost use Rattle.automata.specs.Row.{IsRow};
ghost use Rattle.automata.specs.Edge.{Bounded};
ghost use Rattle.automata.specs.Closed.{Mem};
ghost use Rattle.regions.specs.Values.{bounds_of, row_of, edge_of};
ghost use Rattle.listed_rows.specs.RegionLists.{nth_row};
ghost use Rattle.listed_rows.specs.EdgesInLists.{bounds_in, led_in, InSource};
ghost use Rattle.walked_rows.specs.Leading.{LeadsIn};
ghost use Rattle.open_rows.specs.Leading.{Lacked};

use edge_walk::way::open_way;
use inclusion::gaps::first_gap;
use listed_rows::edge_in_list::EdgeInList;
use listed_rows::listed::Span;
use regions::clocks::Clocks;
use regions::edge::Edge;
use regions::region::Region;

// A region that the edge leads to from this one and that may have to stand before row `gap`, if the list had it: the first past the last row before there
// that the edge leads to.
fn lacked_before(edge: &EdgeInList, from: Region, gap: usize) -> Option<Region>
    requires row { IsRow (bounds_in edge.now) (row_of edge.now.list.clocks.count from) }
{
    let Span { start, end } = edge.into;
    let way = open_way(edge.list.clocks, from, edge.e)?;
    let last = (start..end.min(gap))
        .rev()
        .map(|k| edge.list.row(k))
        .find(|row| way.search.allows(*row));
    way.next(last)
}

// Whether the edge permits the region's intervals, clock by clock, from another region. It asks few of the clocks where it does not.
fn intervals_fit(clocks: Clocks, e: Edge, from: Region, region: Region) -> bool
    requires bounded { Bounded (bounds_of clocks) (edge_of clocks.count e) }
{
    (0..clocks.count as usize).all(|z| {
        let asked = from.clock_move(clocks, z, e.updates[z]);
        asked.permits(region.intervals[z])
    })
}

// Whether a region that was guessed is one of the target, and is not in the list.
fn is_lacked(edge: &EdgeInList, guess: Region) -> bool
    ensures { result ≡ true → Lacked edge.now guess }
{
    guess.location == edge.e.target
        && guess.is_region(edge.list.clocks)
        && edge.list.find(guess, 2 * edge.list.count).is_err()
}

// Whether the edge leads to a region of its target from row i.
fn leads_to(edge: &EdgeInList, i: usize, region: Region) -> bool
    requires i_lt_count { i < edge.now.list.count }
    requires i_value { (nth_row edge.now.list i).location ≡ edge.now.e.source }
    requires lacked { Lacked edge.now region }
    ensures { result ≡ true → Mem (row_of edge.now.list.clocks.count region) (led_in edge.now (nth_row edge.now.list i)) }
{
    let clocks = edge.list.clocks;
    let row = edge.list.row(i);
    if !intervals_fit(clocks, edge.e, row, region) || !row.guards_hold(clocks, edge.e) {
        return false;
    }
    match open_way(clocks, row, edge.e) {
        Some(way) => way.search.allows(region),
        None => false,
    }
}

// The first of the rows from which the edge leads to a region that the list lacks, or their end.
fn first_leading_to(edge: &EdgeInList, region: Region, rows: Span) -> usize
    requires in_source { InSource edge.now rows }
    requires lacked { Lacked edge.now region }
    ensures range { (rows.start ≤ result) × (result ≤ rows.end) }
    ensures leads { result < rows.end → Mem (row_of edge.now.list.clocks.count region) (led_in edge.now (nth_row edge.now.list result)) }
{
    (rows.start..rows.end)
        .find(|i| leads_to(edge, *i, region))
        .unwrap_or(rows.end)
}

// One of the rows that is open, or their end: the first that lacks what the last of them seems to lack. Where their end is told, the last may be open all the
// same: what it lacks was guessed wrong.
pub fn traced(edge: &EdgeInList, rows: Span) -> usize
    requires in_source { InSource edge.now rows }
    requires start_lt_end { rows.start < rows.end }
    ensures range { (rows.start ≤ result) × (result ≤ rows.end) }
    ensures open { result < rows.end → LeadsIn edge.now result → ⊥ }
{
    let last = edge.list.row(rows.end - 1);
    match lacked_before(edge, last, first_gap(edge, last)) {
        Some(guess) if is_lacked(edge, guess) => first_leading_to(edge, guess, rows),
        _ => rows.end,
    }
}
