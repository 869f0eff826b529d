// Some row of a location from which an edge leads out of a region list, where some rows are old: the edge is known to lead into the list from those, and is
// walked from others alone.
// What joins two parameters stays a clause here: a type of both would be made anew for each call, and taken apart in it.
ghost use Rattle.std.specs.Prelude.{◌≡◌, ℕ, length};
ghost use Rattle.skylines.specs.Alike.{ReadsNone};
ghost use Rattle.listed_rows.specs.EdgesInLists.{edge_in, InSource};
ghost use Rattle.walked_rows.specs.Open.{SomeOpen};
ghost use Rattle.walked_rows.specs.Leading.{LeadsIn, TakenIn};

use crate::guarded::first_guarded;
use crate::sides::open_by_sides;
use crate::walking::leads_from;
use listed_rows::edge_in_list::EdgeInList;
use listed_rows::listed::Span;
use skylines::alike::reads_none;

// One of the rows from which the edge leads out of the list, or their end, if it reads no clock: it leads to the same regions from all rows that it can be
// taken from, so the first of these tells for all, by being old or by a walk.
pub fn open_alike(edge: &EdgeInList, rows: Span, old: &[bool; 4096]) -> usize
    requires in_source { InSource edge.now rows }
    requires reads_none { ReadsNone edge.now.list.clocks.count (edge_in edge.now) }
    requires taken_inside { TakenIn edge.now rows old.now }
    ensures { SomeOpen (LeadsIn edge.now) rows.start rows.end result }
{
    let i = first_guarded(edge, rows);
    if rows.end <= i || old[i] || leads_from(edge, i, 2 * edge.list.count).is_ok() {
        rows.end
    } else {
        i
    }
}

// One of the rows, all in the edge's source, from which it leads out of the list, or their end. It is known to lead into it from the old ones.
pub fn some_open(edge: &EdgeInList, rows: Span, old: &[bool; 4096]) -> usize
    requires in_source { InSource edge.now rows }
    requires taken_inside { TakenIn edge.now rows old.now }
    ensures { SomeOpen (LeadsIn edge.now) rows.start rows.end result }
{
    if reads_none(edge.list.clocks.count as usize, edge.e) {
        return open_alike(edge, rows, old);
    }
    let mut taken = [false; 4096];
    open_by_sides(edge, rows, old, &mut taken)
}
