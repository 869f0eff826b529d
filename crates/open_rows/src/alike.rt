// The first row of a location from which an edge that reads no clock leads out of a region list.
// What joins two parameters stays a clause here: a type of both would be made anew for each call, and taken apart in it.
ghost use Rattle.skylines.specs.Alike.{ReadsNone};
ghost use Rattle.listed_rows.specs.EdgesInLists.{edge_in, InSource};
ghost use Rattle.walked_rows.specs.Open.{FirstOpen};
ghost use Rattle.walked_rows.specs.Leading.{LeadsIn};

use listed_rows::edge_in_list::EdgeInList;
use listed_rows::listed::Span;
use walked_rows::guarded::first_guarded;
use walked_rows::walking::leads_from;

// The first of the rows from which the edge leads out of the list, or their end, if it reads no clock: it leads to the same regions from all rows that it can
// be taken from, so it is walked from the first of these.
pub fn first_alike(edge: &EdgeInList, rows: Span) -> usize
    requires in_source { InSource edge.now rows }
    requires reads_none { ReadsNone edge.now.list.clocks.count (edge_in edge.now) }
    ensures { FirstOpen (LeadsIn edge.now) rows.start rows.end result }
{
    let i = first_guarded(edge, rows);
    if rows.end <= i || leads_from(edge, i, 2 * edge.list.count).is_ok() {
        rows.end
    } else {
        i
    }
}
