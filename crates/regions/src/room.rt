// The room for ranks: how many there can be with none missing, where those of the first clocks are chosen.
// Bounds of a number stay clauses here: the check finds them at each call, and a type around the number would be opened at each use.
ghost use Rattle.std.specs.Prelude.{◌≡◌, true, cond, ℕ, ◌≤◌, ◌<◌, ltb};
ghost use Rattle.automata.specs.Clocks.{at};
ghost use Rattle.automata.specs.Rows.{openb};
ghost use Rattle.automata.specs.Rankings.{usedb, newb, rank_room};
ghost use Rattle.regions.specs.Values.{bounds_of, row_of};

use crate::clocks::Clocks;
use crate::region::{Region, is_open};

// Whether one of the first clocks has the rank.
pub fn is_used(ranks: [u8; 4], clocks: usize, rank: u8) -> bool
    requires { clocks ≤ 4 }
    ensures { result ≡ usedb ranks clocks rank }
{
    (0..clocks).any(|z| ranks[z] == rank)
}

// Whether a clock has a rank above 0 that no clock before it has.
fn is_new(ranks: [u8; 4], clock: usize) -> bool
    requires { clock < 4 }
    ensures { result ≡ newb ranks clock }
{
    let rank = ranks[clock];
    rank != 0 && !is_used(ranks, clock, rank)
}

// The least rank from this one on that none of the first clocks has; those above the last are not looked at.
pub fn next_unused(ranks: [u8; 4], clocks: usize, last: u8, from: u16) -> u16
    requires { clocks ≤ 4 }
    ensures { (from ≤ result) × ((a : ℕ) → from ≤ a → a < result → usedb ranks clocks a ≡ true) }
{
    let end = (last as u16) + 1;
    for rank in from..end {
        if !is_used(ranks, clocks, rank as u8) {
            return rank;
        }
    }
    from.max(end)
}

impl Region {
    // Whether a clock can have a rank that those before it lack: one of the first clocks where it does, any other where its interval is open.
    fn adds_rank(self, clocks: Clocks, chosen: usize, clock: usize) -> bool
        requires clock_lt_count { clock < clocks.count }
        ensures { result ≡ cond (ltb clock chosen) (newb self.ranks clock) (openb (at clocks.bounds clock) (at self.intervals clock)) }
    {
        if clock < chosen {
            is_new(self.ranks, clock)
        } else {
            is_open(clocks.bounds[clock], self.intervals[clock])
        }
    }

    // How many ranks there can be with none missing, where those of the first clocks are chosen.
    pub fn rank_room(self, clocks: Clocks, chosen: usize) -> u8
        ensures { result ≡ rank_room (bounds_of clocks) (row_of clocks.count self).intervals self.ranks chosen clocks.count }
    {
        let mut total = 0;
        for z in 0..clocks.count as usize {
            if self.adds_rank(clocks, chosen, z) {
                total += 1;
            }
        }
        total
    }
}
