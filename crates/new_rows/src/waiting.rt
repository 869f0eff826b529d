// The region after a region in time, if a list lacks it.
// What joins two parameters stays a clause here: a type of both would be made anew for each call, and taken apart in it.
ghost use Rattle.automata.specs.Row.{IsRow};
ghost use Rattle.automata.specs.Successors.{wait_rows};
ghost use Rattle.regions.specs.Values.{bounds_of, row_of};
ghost use Rattle.listed_rows.specs.RegionLists.{all_rows};
ghost use Rattle.new_rows.specs.New.{NewOf};

use crate::sole::unless_listed;
use listed_rows::region_list::RegionList;
use regions::region::Region;

// The region that waiting leads to, unless the list has it.
pub fn new_by_waiting(list: &RegionList, from: Region, hint: usize) -> Option<Region>
    requires row { IsRow (bounds_of list.now.clocks) (row_of list.now.clocks.count from) }
    ensures { NewOf list.now.clocks.count (wait_rows (bounds_of list.now.clocks) (row_of list.now.clocks.count from)) (all_rows list.now) result }
{
    unless_listed(list, from.wait(list.clocks), hint)
}
