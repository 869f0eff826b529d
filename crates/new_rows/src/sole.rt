// The one next region of a region, if a list lacks it.
ghost use Rattle.automata.specs.Successors.{held};
ghost use Rattle.regions.specs.Values.{found_of};
ghost use Rattle.listed_rows.specs.RegionLists.{all_rows};
ghost use Rattle.new_rows.specs.New.{NewOf};

use listed_rows::region_list::RegionList;
use regions::region::Region;

// A region that was found, unless the list has it.
pub fn unless_listed(list: &RegionList, next: Option<Region>, hint: usize) -> Option<Region>
    ensures { NewOf list.now.clocks.count (held (found_of list.now.clocks.count next)) (all_rows list.now) result }
{
    match next {
        Some(region) if list.find(region, hint).is_err() => next,
        _ => None,
    }
}
