// Which rows of a location an edge is walked from: those that it leads furthest from, chosen before any is walked from.
// Bounds of a number stay clauses here: the check finds them at each call, and a type around the number would be opened at each use.
// What joins two parameters stays a clause here: a type of both would be made anew for each call, and taken apart in it.
ghost use Rattle.std.specs.Prelude.{◌≡◌, true, false, cond, ℕ, ◌≤◌, ◌<◌, min, length, MatchOption};
ghost use Rattle.automata.specs.Successors.{guardsb};
ghost use Rattle.regions.specs.Values.{bounds_of, edge_of};
ghost use Rattle.skylines.specs.Reach.{ReachOf};
ghost use Rattle.listed_rows.specs.Listed.{listed_row};
ghost use Rattle.listed_rows.specs.Located.{Stretch};
ghost use Rattle.selection.specs.Chosen.{AllSit, Offers, Chooses};

use listed_rows::edge_in_list::EdgeOverRows;
use listed_rows::listed::Span;
use skylines::reach::{Reach, reach_of};
use skylines::skyline::Skyline;

// The reach of row i, if the edge can be taken from it.
pub fn reach_at(edge: &EdgeOverRows, i: usize) -> Option<Reach>
    requires i_lt_count { i < edge.now.count }
    ensures { MatchOption result (guardsb (listed_row edge.now.clocks.count edge.now.bytes.now i) (edge_of edge.now.clocks.count edge.now.e).guards ≡ false) (λ own. (guardsb (listed_row edge.now.clocks.count edge.now.bytes.now i) (edge_of edge.now.clocks.count edge.now.e).guards ≡ true) × ReachOf (bounds_of edge.now.clocks) (edge_of edge.now.clocks.count edge.now.e) (listed_row edge.now.clocks.count edge.now.bytes.now i) i own) }
{
    let clocks = edge.clocks;
    let row = edge.row(i);
    if row.guards_hold(clocks, edge.e) {
        Some(reach_of(clocks, edge.e, row, i as u32))
    } else {
        None
    }
}

// Offers row i to those that are chosen so far, and tells whether it is taken then. One that is taken already, or from where the edge cannot be taken, is none
// to choose.
fn offer(edge: &EdgeOverRows, i: usize, already: bool, skyline: &mut Skyline) -> bool
    requires i_lt_count { i < edge.now.count }
    requires i_value { (listed_row edge.now.clocks.count edge.now.bytes.now i).location ≡ edge.now.e.source }
    ensures { (lo hi : ℕ) → lo ≤ i → i < hi → hi ≤ edge.now.count → AllSit (bounds_of edge.now.clocks) (edge_of edge.now.clocks.count edge.now.e) edge.now.clocks.count edge.now.bytes.now lo hi skyline.old.members skyline.old.size → Offers (bounds_of edge.now.clocks) (edge_of edge.now.clocks.count edge.now.e) edge.now.clocks.count edge.now.bytes.now lo hi i already skyline.old.members skyline.old.size skyline.new.members skyline.new.size result }
{
    if already {
        return true;
    }
    match reach_at(edge, i) {
        Some(own) => skyline.seat(edge.clocks.count as usize, own),
        None => true,
    }
}

// The first row left out so far, when row i has been offered.
fn first_left(left: usize, i: usize, seated: bool) -> usize
    ensures { result ≡ cond seated left (min left i) }
{
    if seated { left } else { left.min(i) }
}

// Chooses rows, of those that are not taken, from which the edge leads furthest: it leads no further from any that is taken then, and was not before. What
// finds no room is left out, and not taken: the first such row is told, or the end.
pub fn choose(
    edge: &EdgeOverRows,
    rows: Span,
    taken: &mut [bool; 4096],
    skyline: &mut Skyline,
) -> usize
    requires in_source { Stretch edge.now.clocks.count edge.now.bytes.now edge.now.count edge.now.e.source rows.start rows.end }
    ensures { Chooses (bounds_of edge.now.clocks) (edge_of edge.now.clocks.count edge.now.e) edge.now.clocks.count edge.now.bytes.now rows.start rows.end taken.old taken.new skyline.new.members skyline.new.size result }
{
    skyline.size = 0;
    let mut left = rows.end;
    for i in rows.start..rows.end {
        let seated = offer(edge, i, taken[i], skyline);
        taken[i] = seated;
        left = first_left(left, i, seated);
    }
    left
}
