// Whether the moves of a walk allow a region that was met elsewhere, in a list say.
ghost use Rattle.std.specs.Prelude.{◌≡◌};
ghost use Rattle.regions.specs.Values.{row_of};
ghost use Rattle.edge_walk.specs.Choice.{allowsb, Ready};

use crate::search::Search;
use regions::region::Region;

impl Search {
    // Whether the moves allow a region. Its ranks have to be looked at only where every interval is permitted, and the order of some clock is that of the
    // fractional parts.
    pub fn allows(self, region: Region) -> bool
        ensures { result ≡ allowsb self (row_of self.clocks.count region) }
    {
        let n = usize::from(self.clocks.count);
        let moves = self.moves;
        // one pass over the clocks, by hand: with a chain for each test the check of some lists took an eighth longer
        let mut by_parts = false;
        for z in 0..n {
            let asked = moves.each[z];
            let interval = region.intervals[z];
            if !asked.permits(interval) {
                return false;
            }
            if asked.is_by_parts(interval) {
                by_parts = true;
            }
        }
        !by_parts || moves.are_placed(region, n)
    }
}
