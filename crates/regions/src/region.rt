// A region is a value, document 01's row: a location, and for each clock its interval and the rank of its fractional part.
// Bounds of a number stay clauses here: the check finds them at each call, and a type around the number would be opened at each use.
ghost use Rattle.std.specs.Prelude.{◌≡◌, cond, ◌≤◌, ◌<◌, eqb, ltb};
ghost use Rattle.automata.specs.Clocks.{allb};
ghost use Rattle.automata.specs.Rows.{openb, heldb, clockb, isrowb};
ghost use Rattle.automata.specs.Rankings.{open_clocks};
ghost use Rattle.regions.specs.Values.{bounds_of, row_of};

use crate::clocks::Clocks;

// From the clocks' count on, intervals and ranks are 0, so that equal rows are equal values.
#[repr(C)]
#[derive(Clone, Copy)]
pub struct Region {
    pub location: u8,
    pub intervals: [u16; 4],
    pub ranks: [u8; 4],
}

// Whether the interval lies strictly between two whole values up to the bound.
#[tactic(auto, unfolding(automata::specs::Rows::openb))]
pub fn is_open(bound: u16, interval: u16) -> bool
    requires { bound ≤ 16383 }
    ensures { result ≡ openb bound interval }
{
    interval < 2 * bound && interval % 2 == 1
}

// Whether a rank is one that a clock can have: above 0 in an open interval, 0 in any other.
fn is_rank(inside: bool, rank: u8) -> bool
    ensures { result ≡ cond inside (ltb 0 rank) (eqb rank 0) }
{
    if inside { 0 < rank } else { rank == 0 }
}

impl Region {
    // Whether some clock has the rank; rank 0 asks for none.
    fn is_held(self, clocks: Clocks, rank: u8) -> bool
        ensures { result ≡ heldb (bounds_of clocks) (row_of clocks.count self) rank }
    {
        rank == 0 || (0..clocks.count as usize).any(|z| self.ranks[z] == rank)
    }

    // Whether no rank below this one is missing.
    fn are_held(self, clocks: Clocks, rank: u8) -> bool
        ensures { result ≡ allb rank (heldb (bounds_of clocks) (row_of clocks.count self)) }
    {
        (0..rank).all(|k| self.is_held(clocks, k))
    }

    // Whether the interval of a clock is in range, its rank is above 0 just where that is open, and no rank below it is missing.
    fn is_clock(self, clocks: Clocks, z: usize) -> bool
        requires z_lt_count { z < clocks.count }
        ensures { result ≡ clockb (bounds_of clocks) (row_of clocks.count self) z }
    {
        let bound = clocks.bounds[z];
        let interval = self.intervals[z];
        let rank = self.ranks[z];
        interval <= 2 * bound + 1
            && is_rank(is_open(bound, interval), rank)
            && self.are_held(clocks, rank)
    }

    // Whether the intervals and ranks are those of a region.
    pub fn is_region(self, clocks: Clocks) -> bool
        ensures { result ≡ isrowb (bounds_of clocks) (row_of clocks.count self) }
    {
        (0..clocks.count as usize).all(|z| self.is_clock(clocks, z))
    }

    // How many clocks have open intervals: the greatest rank that a clock of such a region can have.
    pub fn open_clocks(self, clocks: Clocks) -> u8
        ensures { result ≡ open_clocks (bounds_of clocks) (row_of clocks.count self).intervals clocks.count }
    {
        let mut total = 0;
        for z in 0..clocks.count as usize {
            if is_open(clocks.bounds[z], self.intervals[z]) {
                total += 1;
            }
        }
        total
    }
}
