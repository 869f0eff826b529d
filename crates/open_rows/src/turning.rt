// The first row of a location from which an edge leads out of a region list, if the edge may lead to many regions: it is walked from few rows, which tell for
// all, and then from few of those before one from which it leads out.
// What joins two parameters stays a clause here: a type of both would be made anew for each call, and taken apart in it.
ghost use Rattle.std.specs.Prelude.{◌≡◌, ℕ, ◌≤◌, ◌<◌, min};
ghost use Rattle.listed_rows.specs.EdgesInLists.{InSource};
ghost use Rattle.walked_rows.specs.Open.{FirstOpen};
ghost use Rattle.walked_rows.specs.Leading.{LeadsIn};

use crate::tracing::traced;
use listed_rows::edge_in_list::EdgeInList;
use listed_rows::listed::Span;
use walked_rows::turning::open_by_walks;

// Halfway from low to first, and past low where first is: with the rows before that, half of those before first are looked at, or one more.
fn halfway(low: usize, first: usize) -> usize
    requires { low ≤ first }
    ensures { (low ≤ result) × (result ≤ first) × (low < first → low < result) }
{
    first - (first - low) / 2
}

// One of the rows that is open, or their end. One is looked for only where the row at their end is in the edge's source too: it is open then, and the one
// before it is likely to be. So rows are looked at together only once it is known what that one lacks.
fn open_at_end(edge: &EdgeInList, rows: Span) -> usize
    requires in_source { InSource edge.now rows }
    ensures range { (rows.start ≤ result) × (result ≤ rows.end) }
    ensures open { result < rows.end → LeadsIn edge.now result → ⊥ }
{
    let Span { start, end } = rows;
    if end <= start || edge.list.count <= end || edge.list.location(end) != edge.e.source {
        return end;
    }
    traced(edge, rows)
}

// The first of the rows from which the edge leads out of the list, or their end. Where one is found, the first row is sought that lacks the same (`traced`),
// and only the rows before that are left. Of those that the open row told for nothing is known now: all of them are looked at once more, and where one of these
// is open too, half of them, and the others where none of that half is. So they are at most half as many after every two times.
pub fn first_by_walks(edge: &EdgeInList, rows: Span) -> usize
    requires in_source { InSource edge.now rows }
    ensures { FirstOpen (LeadsIn edge.now) rows.start rows.end result }
{
    let mut low = rows.start;
    let mut first = open_at_end(edge, rows);
    let mut top = first;
    let mut again = false;
    while low < first {
        let part = Span {
            start: low,
            end: top,
        };
        let open = open_by_walks(edge, part);
        if open < top {
            let lacking = Span {
                start: low,
                end: open + 1,
            };
            first = open.min(traced(edge, lacking));
            top = if again { halfway(low, first) } else { first };
            again = true;
        } else {
            low = top;
            top = first;
        }
    }
    first
}
