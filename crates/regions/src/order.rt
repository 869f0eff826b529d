// The numbers of a region, in document 01's order of regions: the location, then intervals clock by clock, then ranks clock by clock. The first of them
// in which two regions differ decides which is below the other.
// Bounds of a number stay clauses here: the check finds them at each call, and a type around the number would be opened at each use.
ghost use Rattle.std.specs.Prelude.{◌≡◌, ◌+◌, ◌*◌, ◌≤◌, ◌<◌};
ghost use Rattle.automata.specs.Clocks.{at};
ghost use Rattle.regions.specs.Order.{numbers, put};
ghost use Rattle.regions.specs.Values.{row_of};

use crate::region::Region;

impl Region {
    // Number i of the region of n clocks: the location, an interval or a rank.
    pub fn number(self, n: usize, i: usize) -> u16
        requires n_bound { n ≤ 4 }
        requires i_bound { i < 1 + 2 * n }
        ensures { result ≡ at (numbers (row_of n self)) i }
    {
        if i == 0 {
            (self.location as u16)
        } else if i <= n {
            self.intervals[i - 1]
        } else {
            (self.ranks[i - 1 - n] as u16)
        }
    }

    // The region of n clocks with another number i, an interval or a rank.
    #[tactic(auto, unfolding(crate::specs::Order::put))]
    pub fn with_number(self, n: usize, i: usize, number: u16) -> Region
        requires n_bound { n ≤ 4 }
        requires i_nonzero { (0 < i) × (i < 1 + 2 * n) }
        requires number_bound { n < i → number ≤ 4 }
        ensures { result ≡ put n self i number }
    {
        let mut changed = self;
        if i <= n {
            changed.intervals[i - 1] = number;
        } else {
            changed.ranks[i - 1 - n] = number as u8;
        }
        changed
    }
}
