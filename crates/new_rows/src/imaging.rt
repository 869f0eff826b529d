// The region that a deterministic edge leads to, if a list lacks it.
// What joins two parameters stays a clause here: a type of both would be made anew for each call, and taken apart in it.
ghost use Rattle.std.specs.Prelude.{◌≡◌, true, ◌≤◌};
ghost use Rattle.automata.specs.Row.{IsRow};
ghost use Rattle.automata.specs.Edge.{Bounded};
ghost use Rattle.automata.specs.Successors.{edge_rows};
ghost use Rattle.regions.specs.Image.{deterministic};
ghost use Rattle.regions.specs.Values.{bounds_of, row_of, edge_of};
ghost use Rattle.listed_rows.specs.RegionLists.{all_rows};
ghost use Rattle.new_rows.specs.New.{NewOf};

use crate::sole::unless_listed;
use edge_walk::way::is_enabled;
use listed_rows::region_list::RegionList;
use regions::edge::Edge;
use regions::region::Region;

// The only region that a deterministic edge leads to from a region of any location, unless the list has it.
pub fn new_by_image(list: &RegionList, e: Edge, from: Region, hint: usize) -> Option<Region>
    requires bounded { Bounded (bounds_of list.now.clocks) (edge_of list.now.clocks.count e) }
    requires e_value { deterministic list.now.clocks.count (edge_of list.now.clocks.count e) ≡ true }
    requires row { IsRow (bounds_of list.now.clocks) (row_of list.now.clocks.count from) }
    ensures { NewOf list.now.clocks.count (edge_rows (bounds_of list.now.clocks) (edge_of list.now.clocks.count e) (row_of list.now.clocks.count from)) (all_rows list.now) result }
{
    let clocks = list.clocks;
    if !is_enabled(clocks, from, e) {
        return None;
    }
    unless_listed(list, from.image(clocks, e), hint)
}
