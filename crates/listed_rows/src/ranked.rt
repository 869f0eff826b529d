// Whether a region list has all regions that differ in their ranks alone. They stand together in it, so it is enough to count them: none has to be
// looked up.
ghost use Rattle.std.specs.Prelude.{◌≡◌, true, is_ok};
ghost use Rattle.regions.specs.Values.{bounds_of, row_of};
ghost use Rattle.rankings.specs.Ranking.{InRange};
ghost use Rattle.listed_rows.specs.Ranked.{AllRanked};
ghost use Rattle.listed_rows.specs.RegionLists.{all_rows};

use crate::listed::row_is_beside;
use crate::region_list::RegionList;
use rankings::ranking::rankings_of;
use regions::region::Region;

impl RegionList<'_> {
    // Whether the list has every region that has the location and the intervals of the part: whether a region of the same intervals still stands as many
    // rows after the first of them as there are rankings. The part's own ranks are all 0, so none of these comes before it.
    pub fn has_all_ranked(&self, part: Region, hint: usize) -> Result<usize, usize>
        requires in_range { InRange self.now.clocks part }
        ensures { is_ok result ≡ true → AllRanked (bounds_of self.now.clocks) (all_rows self.now) (row_of self.now.clocks.count part) }
    {
        let first = self.rows_below(part, hint);
        let end = first + rankings_of(self.clocks, part);
        if end <= self.count
            && row_is_beside(self.bytes, self.clocks.count as usize, end - 1, part)
        {
            Ok(end)
        } else {
            Err(first)
        }
    }
}
