// What is asked of the rows of a region list: one of them, and where a region stands among them.
ghost use Rattle.std.specs.Prelude.{◌≡◌, ◌<◌, is_ok};
ghost use Rattle.automata.specs.Checks.{has};
ghost use Rattle.regions.specs.Values.{row_of, region_of};
ghost use Rattle.listed_rows.specs.Listed.{Splits, place_of};
ghost use Rattle.listed_rows.specs.RegionLists.{nth_row, all_rows};

use crate::listed::{comes_below, guess, location_at, row_at, shared_with};
use crate::region_list::RegionList;
use regions::region::Region;

impl RegionList<'_> {
    // Row i.
    pub fn row(&self, i: usize) -> Region
        requires i_lt_count { i < self.now.count }
        ensures { result ≡ region_of (nth_row self.now i) }
    {
        row_at(self.bytes, self.clocks.count as usize, i)
    }

    // The location of row i.
    // It is like `row`: one call, of another function.
    pub fn location(&self, i: usize) -> u8
        requires i_lt_count { i < self.now.count }
        ensures { result ≡ (nth_row self.now i).location }
    {
        location_at(self.bytes, self.clocks.count as usize, i)
    }

    // Where a region stands among the rows, or else where it would stand, so that as many of them are below it: the search ends where it is met.
    fn look_up(&self, wanted: Region, hint: usize) -> Result<usize, usize>
        ensures listed { is_ok result ≡ has (all_rows self.now) (row_of self.now.clocks.count wanted) }
        ensures splits { Splits (nth_row self.now) self.now.count (row_of self.now.clocks.count wanted) (place_of result) }
    {
        let n = self.clocks.count as usize;
        let mut low = 0;
        let mut high = self.count;
        // by hand: rows are records in bytes, and no slice of them is there that the library could search
        while low < high {
            let middle = guess(low, high, hint);
            let same = shared_with(self.bytes, n, middle, wanted);
            if same == 1 + 2 * n {
                return Ok(middle);
            }
            if comes_below(self.bytes, n, middle, wanted, same) {
                low = middle + 1;
            } else {
                high = middle;
            }
        }
        Err(low)
    }

    // Where a region stands among the rows, or else where it would stand, looked for from a hint on.
    pub fn find(&self, wanted: Region, hint: usize) -> Result<usize, usize>
        ensures { is_ok result ≡ has (all_rows self.now) (row_of self.now.clocks.count wanted) }
    {
        self.look_up(wanted, hint)
    }

    // How many of the rows are below a region, looked for from a hint on.
    pub fn rows_below(&self, wanted: Region, hint: usize) -> usize
        ensures { Splits (nth_row self.now) self.now.count (row_of self.now.clocks.count wanted) result }
    {
        match self.look_up(wanted, hint) {
            Ok(at) | Err(at) => at,
        }
    }

    // Whether a region is among the rows.
    pub fn has(&self, wanted: Region) -> bool
        ensures { result ≡ has (all_rows self.now) (row_of self.now.clocks.count wanted) }
    {
        self.find(wanted, 0).is_ok()
    }
}
