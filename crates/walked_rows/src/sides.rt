// Some row of a location from which an edge leads out of a region list, if the edge is taken by its sides.
// What joins two parameters stays a clause here: a type of both would be made anew for each call, and taken apart in it.
ghost use Rattle.std.specs.Prelude.{◌≡◌, ℕ, ◌≤◌, length};
ghost use Rattle.skylines.specs.Sides.{sided};
ghost use Rattle.listed_rows.specs.EdgesInLists.{edge_in, InSource};
ghost use Rattle.walked_rows.specs.Open.{SomeOpen};
ghost use Rattle.walked_rows.specs.Leading.{LeadsIn, TakenIn, SameTaken};

use crate::turning::open_among;
use listed_rows::edge_in_list::EdgeInList;
use listed_rows::listed::Span;
use skylines::sides::{is_choice, with_sides};

// The edge by the sides that k chooses: from the same rows into the same.
pub fn by_sides<'a>(edge: &EdgeInList<'a>, k: u8) -> EdgeInList<'a>
    ensures list { result.list ≡ edge.now.list }
    ensures source { result.e.source ≡ edge.now.e.source }
    ensures means { edge_in result ≡ sided edge.now.list.clocks.count (edge_in edge.now) k }
    ensures few { result.e.guard_count ≡ edge.now.e.guard_count }
{
    EdgeInList {
        list: edge.list,
        e: with_sides(edge.list.clocks.count as usize, edge.e, k),
        into: edge.into,
    }
}

// Takes those of the rows that are old, and no other of them.
fn take_old(old: &[bool; 4096], rows: Span, taken: &mut [bool; 4096])
    requires start_le_end { (rows.start ≤ rows.end) × (rows.end ≤ 4096) }
    ensures { SameTaken rows.start rows.end old.now taken.new }
{
    taken[rows.start..rows.end].copy_from_slice(&old[rows.start..rows.end]);
}

// One of the rows from which the edge leads out of the list, or their end. Where it asks for any value but a clock's, it is taken by its sides, one choice
// after the other: by one side it leads no further from many rows, by both from none. It is known to lead into the list from the old rows, and so it does by
// each side; of the others what was found by one side says nothing of the next, so that all flags are set anew.
pub fn open_by_sides(
    edge: &EdgeInList,
    rows: Span,
    old: &[bool; 4096],
    taken: &mut [bool; 4096],
) -> usize
    requires in_source { InSource edge.now rows }
    requires taken_inside { TakenIn edge.now rows old.now }
    ensures { SomeOpen (LeadsIn edge.now) rows.start rows.end result }
{
    for k in 0..16 {
        if is_choice(edge.list.clocks.count as usize, edge.e, k) {
            take_old(old, rows, taken);
            let open = open_among(&by_sides(edge, k), rows, taken);
            if open < rows.end {
                return open;
            }
        }
    }
    rows.end
}
