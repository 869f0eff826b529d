// A region that a list lacks, of those that an edge leads to which may lead to many: they are met ascending, each is looked up from where the one
// before it was, and the first that is not listed is the one.
// What joins two parameters stays a clause here: a type of both would be made anew for each call, and taken apart in it.
ghost use Rattle.std.specs.Prelude.{◌≡◌, true};
ghost use Rattle.automata.specs.Row.{IsRow};
ghost use Rattle.automata.specs.Rows.{select};
ghost use Rattle.automata.specs.Successors.{guardsb};
ghost use Rattle.regions.specs.Values.{row_of, found_of};
ghost use Rattle.edge_walk.specs.Walk.{above};
ghost use Rattle.edge_walk.specs.Way.{rows_on};
ghost use Rattle.listed_rows.specs.RegionLists.{all_rows};
ghost use Rattle.listed_rows.specs.EdgesInLists.{bounds_in, edge_in, led_in};
ghost use Rattle.new_rows.specs.New.{NewOf};

use edge_walk::way::{Way, open_way};
use inclusion::inside::leads_inside;
use listed_rows::edge_in_list::EdgeInList;
use listed_rows::region_list::RegionList;
use regions::region::Region;

// The first region on a way above the floor, or of all where there is no floor, that the list lacks.
pub fn first_new(list: &RegionList, way: Way, floor: Option<Region>, hint: usize) -> Option<Region>
    requires clocks { way.search.clocks ≡ list.now.clocks }
    ensures { NewOf list.now.clocks.count (select (above (found_of list.now.clocks.count floor)) (rows_on way)) (all_rows list.now) result }
{
    let mut next = way.next(floor);
    let mut last = hint;
    while let Some(region) = next {
        match list.find(region, last) {
            Ok(at) => last = at,
            Err(_) => return next,
        }
        next = way.next(next);
    }
    None
}

// A region that an edge leads to from this one, where its guards hold, and that the list lacks. Where it is looked for first is up to the caller: from
// the floor on, if there is one. If nothing is found there, whether the list has all of them is asked before they are met one by one.
#[tactic(auto, using(crate::proofs::Laws::New::new_nothing))]
pub fn new_by_walk(
    edge: &EdgeInList,
    from: Region,
    floor: Option<Region>,
    hint: usize,
) -> Option<Region>
    requires row { IsRow (bounds_in edge.now) (row_of edge.now.list.clocks.count from) }
    requires location_value { from.location ≡ edge.now.e.source }
    requires e_value { guardsb (row_of edge.now.list.clocks.count from) (edge_in edge.now).guards ≡ true }
    ensures { NewOf edge.now.list.clocks.count (led_in edge.now (row_of edge.now.list.clocks.count from)) (all_rows edge.now.list) result }
{
    let list = &edge.list;
    let way = open_way(list.clocks, from, edge.e)?;
    if floor.is_some() {
        let further = first_new(list, way, floor, hint);
        if further.is_some() {
            return further;
        }
    }
    let inside = leads_inside(edge, from, hint);
    if inside.is_ok() {
        return None;
    }
    first_new(list, way, None, hint)
}
