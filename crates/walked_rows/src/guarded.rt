// The first row of a location that an edge can be taken from.
// Bounds of a number stay clauses here: the check finds them at each call, and a type around the number would be opened at each use.
// What joins two parameters stays a clause here: a type of both would be made anew for each call, and taken apart in it.
ghost use Rattle.std.specs.Prelude.{◌≡◌, ℕ, ◌<◌};
ghost use Rattle.automata.specs.Successors.{guardsb};
ghost use Rattle.listed_rows.specs.RegionLists.{nth_row};
ghost use Rattle.listed_rows.specs.EdgesInLists.{edge_in, InSource};
ghost use Rattle.walked_rows.specs.Open.{FirstOpen};
ghost use Rattle.walked_rows.specs.Leading.{Blocked};

use listed_rows::edge_in_list::EdgeInList;
use listed_rows::listed::Span;

// Whether the edge's guards hold at row i.
fn is_guarded(edge: &EdgeInList, i: usize) -> bool
    requires i_lt_count { i < edge.now.list.count }
    ensures { result ≡ guardsb (nth_row edge.now.list i) (edge_in edge.now).guards }
{
    edge.list.row(i).guards_hold(edge.list.clocks, edge.e)
}

// The first of the rows where the edge's guards hold, or their end.
pub fn first_guarded(edge: &EdgeInList, rows: Span) -> usize
    requires in_source { InSource edge.now rows }
    ensures { FirstOpen (Blocked (edge_in edge.now) edge.now.list.clocks.count edge.now.list.bytes.now) rows.start rows.end result }
{
    (rows.start..rows.end)
        .find(|i| is_guarded(edge, *i))
        .unwrap_or(rows.end)
}
