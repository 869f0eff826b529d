// Waiting, the time successor of a region: the region that comes next as all clocks grow alike.
// Bounds of a number stay clauses here: the check finds them at each call, and a type around the number would be opened at each use.
// What joins two parameters stays a clause here: a type of both would be made anew for each call, and taken apart in it.
ghost use Rattle.std.specs.Prelude.{◌≡◌, ◌≤◌, take};
ghost use Rattle.automata.specs.Clocks.{greatest};
ghost use Rattle.automata.specs.Row.{IsRow};
ghost use Rattle.automata.specs.Wait.{evenb, entersb, some_evenb, growsb, leave_interval, leave_rank, left, arrive_interval, arrive_rank, arrived, wait};
ghost use Rattle.regions.specs.Values.{bounds_of, row_of, region_of, sought};

use crate::clocks::Clocks;
use crate::region::Region;

// One clock, where some clock has a whole value ----------------------------------------------------------------------------------

// Whether the interval is a whole value.
#[tactic(auto, unfolding(automata::specs::Wait::evenb))]
fn is_even(bound: u16, interval: u16) -> bool
    requires { bound ≤ 16383 }
    ensures { result ≡ evenb bound interval }
{
    interval <= 2 * bound && interval % 2 == 0
}

// Whether the interval is a whole value below the bound: waiting takes it into the open interval above.
#[tactic(auto, unfolding(automata::specs::Wait::entersb, automata::specs::Wait::evenb))]
fn enters(bound: u16, interval: u16) -> bool
    requires { bound ≤ 16383 }
    ensures { result ≡ entersb bound interval }
{
    interval != 2 * bound && is_even(bound, interval)
}

// The interval after a whole value is left.
#[tactic(auto, unfolding(automata::specs::Wait::leave_interval))]
fn leave_interval(bound: u16, interval: u16) -> u16
    requires { bound ≤ 16383 }
    ensures { result ≡ leave_interval bound interval }
{
    if is_even(bound, interval) {
        interval + 1
    } else {
        interval
    }
}

// The rank after whole values are left: 1 in the open interval that is entered, 0 at the top; the other ranks grow where one is taken.
#[tactic(auto, unfolding(automata::specs::Wait::leave_rank))]
fn leave_rank(grow: bool, bound: u16, interval: u16, rank: u8) -> u8
    requires bound_bound { bound ≤ 16383 }
    requires rank_bound { rank ≤ 4 }
    ensures { result ≡ leave_rank grow bound interval rank }
{
    if is_even(bound, interval) {
        u8::from(enters(bound, interval))
    } else if grow && rank != 0 {
        rank + 1
    } else {
        rank
    }
}

// One clock, where none has ------------------------------------------------------------------------------------------------------

// The interval after the clocks of the greatest rank have come to a whole value.
#[tactic(auto, unfolding(automata::specs::Wait::arrive_interval))]
fn arrive_interval(top_rank: u8, interval: u16, rank: u8) -> u16
    requires { interval ≤ 32767 }
    ensures { result ≡ arrive_interval top_rank interval rank }
{
    if rank == top_rank {
        interval + 1
    } else {
        interval
    }
}

// The rank after that: a whole value has rank 0.
#[tactic(auto, unfolding(automata::specs::Wait::arrive_rank))]
fn arrive_rank(top_rank: u8, rank: u8) -> u8
    ensures { result ≡ arrive_rank top_rank rank }
{
    if rank == top_rank { 0 } else { rank }
}

impl Region {
    // Whether some clock has a whole value.
    fn some_even(self, clocks: Clocks) -> bool
        ensures { result ≡ some_evenb (bounds_of clocks) (row_of clocks.count self) }
    {
        (0..clocks.count as usize).any(|z| is_even(clocks.bounds[z], self.intervals[z]))
    }

    // Whether some clock has a whole value below its bound, so that it takes rank 1.
    // It is like `some_even`: one line, and a call that took the test would be as long.
    fn grows(self, clocks: Clocks) -> bool
        ensures { result ≡ growsb (bounds_of clocks) (row_of clocks.count self) }
    {
        (0..clocks.count as usize).any(|z| enters(clocks.bounds[z], self.intervals[z]))
    }

    // The greatest rank of the first clocks, 0 if they have none.
    pub fn greatest_rank_of(self, count: usize) -> u8
        requires { count ≤ 4 }
        ensures { result ≡ greatest (take count self.ranks) }
    {
        self.ranks[..count]
            .iter()
            .fold(0, |greatest, rank| greatest.max(*rank))
    }

    // The greatest rank.
    fn greatest_rank(self, clocks: Clocks) -> u8
        ensures { result ≡ greatest (row_of clocks.count self).ranks }
    {
        self.greatest_rank_of(clocks.count as usize)
    }

    // The region after the clocks with whole values have left them.
    fn left(self, clocks: Clocks) -> Region
        requires row { IsRow (bounds_of clocks) (row_of clocks.count self) }
        ensures { result ≡ region_of (left (bounds_of clocks) (row_of clocks.count self)) }
    {
        let grow = self.grows(clocks);
        let n = clocks.count as usize;
        let mut intervals = [0; 4];
        let mut ranks = [0; 4];
        for z in 0..n {
            let bound = clocks.bounds[z];
            let interval = self.intervals[z];
            intervals[z] = leave_interval(bound, interval);
            ranks[z] = leave_rank(grow, bound, interval, self.ranks[z]);
        }
        Region {
            location: self.location,
            intervals,
            ranks,
        }
    }

    // The region after the clocks of the greatest rank have come to whole values.
    fn arrived(self, clocks: Clocks, top_rank: u8) -> Region
        requires row { IsRow (bounds_of clocks) (row_of clocks.count self) }
        requires top_rank_value { top_rank ≡ greatest (row_of clocks.count self).ranks }
        ensures { result ≡ region_of (arrived (bounds_of clocks) (row_of clocks.count self)) }
    {
        let n = clocks.count as usize;
        let mut intervals = [0; 4];
        let mut ranks = [0; 4];
        for z in 0..n {
            let rank = self.ranks[z];
            intervals[z] = arrive_interval(top_rank, self.intervals[z], rank);
            ranks[z] = arrive_rank(top_rank, rank);
        }
        Region {
            location: self.location,
            intervals,
            ranks,
        }
    }

    // The time successor, document 01's waiting: the region after this one, or none.
    pub fn wait(self, clocks: Clocks) -> Option<Region>
        requires row { IsRow (bounds_of clocks) (row_of clocks.count self) }
        ensures { result ≡ sought (wait (bounds_of clocks) (row_of clocks.count self)) }
    {
        if self.some_even(clocks) {
            return Some(self.left(clocks));
        }
        let top_rank = self.greatest_rank(clocks);
        if top_rank == 0 {
            return None;
        }
        Some(self.arrived(clocks, top_rank))
    }
}
