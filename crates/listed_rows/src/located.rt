// Where the rows of a location stand in a region list.
ghost use Rattle.listed_rows.specs.Located.{Starts, Together, RowsIn};

use crate::listed::{Span, guess};
use crate::region_list::RegionList;
use regions::region::Region;

impl RegionList<'_> {
    // How many rows are in the locations before this one: looked for by halves, since a hint past the end tells nothing.
    fn rows_before(&self, location: u8) -> usize
        ensures { Starts self.now.clocks.count self.now.bytes.now self.now.count location result }
    {
        let least = Region {
            location,
            intervals: [0; 4],
            ranks: [0; 4],
        };
        self.rows_below(least, 2 * self.count)
    }

    // Where the rows of a location end that start at a row: looked for from there on in steps that double, then by halves.
    fn rows_end(&self, start: usize, location: u8) -> usize
        requires { Starts self.now.clocks.count self.now.bytes.now self.now.count location start }
        ensures { Together self.now.clocks.count self.now.bytes.now self.now.count start location result }
    {
        let mut low = start;
        let mut high = self.count;
        // by hand, as in `look_up`
        while low < high {
            let middle = guess(low, high, start);
            if self.location(middle) == location {
                low = middle + 1;
            } else {
                high = middle;
            }
        }
        low
    }

    // Where the rows of a location stand: they ascend, so they stand together.
    pub fn rows_in(&self, location: u8) -> Span
        ensures { RowsIn self.now.clocks.count self.now.bytes.now self.now.count location result.start result.end }
    {
        let start = self.rows_before(location);
        Span {
            start,
            end: self.rows_end(start, location),
        }
    }
}
