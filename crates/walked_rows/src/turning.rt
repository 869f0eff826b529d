// Some row of a location from which an edge leads out of a region list, if the edge may lead to many regions: it is walked from few rows, which tell for all.
// What joins two parameters stays a clause here: a type of both would be made anew for each call, and taken apart in it.
ghost use Rattle.std.specs.Prelude.{◌≡◌, ℕ, ◌≤◌, length};
ghost use Rattle.listed_rows.specs.EdgesInLists.{bounds_in, edge_in, InSource};
ghost use Rattle.walked_rows.specs.Open.{SomeOpen};
ghost use Rattle.walked_rows.specs.Leading.{LeadsIn, TakenIn, Grouped};

use crate::walking::{least_chosen, least_held};
use listed_rows::edge_in_list::EdgeInList;
use listed_rows::listed::Span;
use selection::choosing::choose;
use selection::grouping::{has_groups, lodge_all};
use skylines::skyline::Skyline;

// One of the rows from which the edge leads out of the list, or their end: of rows that are not taken one or two of each group are walked from, as far as
// groups find slots. Then all rows are taken that one of these covers.
fn open_in_groups(edge: &EdgeInList, rows: Span, taken: &mut [bool; 4096]) -> usize
    requires in_source { InSource edge.now rows }
    ensures { Grouped (bounds_in edge.now) (edge_in edge.now) edge.now.list.clocks.count edge.now.list.bytes.now edge.now.list.count rows.start rows.end taken.old taken.new result }
{
    let clocks = edge.list.clocks;
    if !has_groups(clocks.count as usize, clocks.bounds, edge.e) {
        return rows.end;
    }
    let mut slots = [0u16; 1024];
    let over = edge.over_rows();
    lodge_all(&over, rows, taken, &mut slots);
    // once more: what a slot holds now may lead further than rows that were offered before it
    lodge_all(&over, rows, taken, &mut slots);
    least_held(edge, &slots, rows.end)
}

// One of the rows from which the edge leads out of the list, or their end. It is known to lead into it from those that are taken at first. Of the others it is
// walked only from rows that it leads furthest from: one or two of each group, and others of the same groups, then as many of what is left as there is room
// for. What had to be left out comes the next time.
pub fn open_among(edge: &EdgeInList, rows: Span, taken: &mut [bool; 4096]) -> usize
    requires in_source { InSource edge.now rows }
    requires taken_inside { TakenIn edge.now rows taken.old }
    ensures { SomeOpen (LeadsIn edge.now) rows.start rows.end result }
{
    let over = edge.over_rows();
    let mut skyline = Skyline::new();
    let end = rows.end;
    let mut from = rows.start;
    while from < end {
        let left = Span { start: from, end };
        let held = open_in_groups(edge, left, taken);
        if held < end {
            return held;
        }
        // again, for other rows of the same groups
        let again = open_in_groups(edge, left, taken);
        if again < end {
            return again;
        }
        let next = choose(&over, left, taken, &mut skyline);
        let open = least_chosen(edge, &skyline.members, skyline.size, end);
        if open < end {
            return open;
        }
        from = next;
    }
    end
}

// One of the rows from which the edge leads out of the list, or their end, if nothing is known of any.
pub fn open_by_walks(edge: &EdgeInList, rows: Span) -> usize
    requires in_source { InSource edge.now rows }
    ensures { SomeOpen (LeadsIn edge.now) rows.start rows.end result }
{
    let mut taken = [false; 4096];
    open_among(edge, rows, &mut taken)
}
