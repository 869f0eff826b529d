// The first row of a region list that lacks the row after it in time.
// What joins two parameters stays a clause here: a type of both would be made anew for each call, and taken apart in it.
ghost use Rattle.std.specs.Prelude.{◌≡◌};
ghost use Rattle.automata.specs.Row.{IsRow};
ghost use Rattle.automata.specs.Successors.{wait_rows};
ghost use Rattle.automata.specs.Checks.{every, has};
ghost use Rattle.regions.specs.Values.{bounds_of, row_of};
ghost use Rattle.listed_rows.specs.RegionLists.{all_rows};
ghost use Rattle.walked_rows.specs.Open.{FirstOpen};
ghost use Rattle.open_rows.specs.Leading.{NextIn};

use listed_rows::region_list::RegionList;
use regions::region::Region;

// Whether the region after this one in time is in the list, or there is none. It mostly stands near the hint, right after this one.
fn waits_inside(list: &RegionList, from: Region, hint: usize) -> bool
    requires row { IsRow (bounds_of list.now.clocks) (row_of list.now.clocks.count from) }
    ensures { result ≡ every (has (all_rows list.now)) (wait_rows (bounds_of list.now.clocks) (row_of list.now.clocks.count from)) }
{
    match from.wait(list.clocks) {
        Some(next) => list.find(next, hint).is_ok(),
        None => true,
    }
}

// The first row that lacks its next row by waiting, or the count of rows.
pub fn first_by_waiting(list: &RegionList) -> usize
    ensures { FirstOpen (NextIn list.now (wait_rows (bounds_of list.now.clocks))) 0 list.now.count result }
{
    (0..list.count)
        .find(|i| !waits_inside(list, list.row(*i), *i + 1))
        .unwrap_or(list.count)
}
