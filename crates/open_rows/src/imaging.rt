// The first row of a location from which a deterministic edge leads out of a region list: it leads to one row at most.
// Bounds of a number stay clauses here: the check finds them at each call, and a type around the number would be opened at each use.
// What joins two parameters stays a clause here: a type of both would be made anew for each call, and taken apart in it.
ghost use Rattle.std.specs.Prelude.{◌≡◌, true, ◌<◌, length, is_ok};
ghost use Rattle.automata.specs.Row.{IsRow};
ghost use Rattle.regions.specs.Image.{deterministic};
ghost use Rattle.automata.specs.Checks.{every, has};
ghost use Rattle.regions.specs.Values.{row_of};
ghost use Rattle.listed_rows.specs.RegionLists.{nth_row, all_rows};
ghost use Rattle.listed_rows.specs.EdgesInLists.{bounds_in, edge_in, led_in, InSource};
ghost use Rattle.walked_rows.specs.Open.{FirstOpen};
ghost use Rattle.walked_rows.specs.Leading.{LeadsIn};
ghost use Rattle.open_rows.specs.Leading.{Known};

use listed_rows::edge_in_list::EdgeInList;
use listed_rows::listed::Span;
use regions::region::Region;
use skylines::reach::{Reach, is_within, reach_of};

// Whether a deterministic edge leads from a region of its source into the list: it leads to one region at most, where its guards hold.
fn leads_to_one(edge: &EdgeInList, from: Region, hint: usize) -> Result<usize, usize>
    requires e_value { deterministic edge.now.list.clocks.count (edge_in edge.now) ≡ true }
    requires row { IsRow (bounds_in edge.now) (row_of edge.now.list.clocks.count from) }
    requires location_value { from.location ≡ edge.now.e.source }
    ensures { is_ok result ≡ every (has (all_rows edge.now.list)) (led_in edge.now (row_of edge.now.list.clocks.count from)) }
{
    let clocks = edge.list.clocks;
    if !from.guards_hold(clocks, edge.e) {
        return Ok(hint);
    }
    match from.image(clocks, edge.e) {
        Some(next) => edge.list.find(next, hint),
        None => Ok(hint),
    }
}

// A slot for a reach. Any would be right; different ones had better have different slots.
fn slot(reach: Reach) -> usize
    ensures { result < 64 }
{
    let part = |z: usize| reach.lows[z] as usize % 64;
    (part(0) + 3 * part(1) + 7 * part(2) + 13 * part(3)) % 64
}

// Whether the edge leads into the list from row i of its source. The reaches of rows from where it does are kept, in each slot the last: from a row whose
// reach lies within such a one it does too, and its image is not worked out.
fn image_inside(
    edge: &EdgeInList,
    i: usize,
    hint: usize,
    members: &mut [Reach; 64],
    known: &mut [bool; 64],
) -> Result<usize, usize>
    requires e_value { deterministic edge.now.list.clocks.count (edge_in edge.now) ≡ true }
    requires i_lt_count { i < edge.now.list.count }
    requires i_value { (nth_row edge.now.list i).location ≡ edge.now.e.source }
    requires known_2 { Known edge.now members.old known.old }
    ensures listed { is_ok result ≡ every (has (all_rows edge.now.list)) (led_in edge.now (nth_row edge.now.list i)) }
    ensures known { Known edge.now members.new known.new }
{
    let clocks = edge.list.clocks;
    let row = edge.list.row(i);
    if !row.guards_hold(clocks, edge.e) {
        return Ok(hint);
    }
    let own = reach_of(clocks, edge.e, row, i as u32);
    let k = slot(own);
    if known[k] && is_within(clocks.count as usize, own, members[k]) {
        return Ok(hint);
    }
    let found = leads_to_one(edge, row, hint);
    members[k] = own;
    known[k] = found.is_ok();
    found
}

// The first of the rows from which a deterministic edge leads out of the list, or their end.
pub fn first_by_image(edge: &EdgeInList, rows: Span) -> usize
    requires e_value { deterministic edge.now.list.clocks.count (edge_in edge.now) ≡ true }
    requires in_source { InSource edge.now rows }
    ensures { FirstOpen (LeadsIn edge.now) rows.start rows.end result }
{
    let mut members = [Reach::default(); 64];
    let mut known = [false; 64];
    let mut hint = 2 * edge.list.count;
    for i in rows.start..rows.end {
        match image_inside(edge, i, hint, &mut members, &mut known) {
            Ok(at) => hint = at,
            Err(_) => return i,
        }
    }
    rows.end
}
