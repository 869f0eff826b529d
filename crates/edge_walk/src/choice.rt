// The choices of the walk over an edge's next regions: it chooses the numbers of a region one after the other, intervals clock by clock and then
// ranks clock by clock, which is document 01's order of regions.
ghost use Rattle.std.specs.Prelude.{◌≡◌, ◌+◌, ◌*◌, ◌≤◌, ◌<◌};
ghost use Rattle.edge_walk.specs.Choice.{stuckb, PassesOver, Ready, Skips, Ends};

use crate::search::Search;
use regions::region::{Region, is_open};
use regions::room::{is_used, next_unused};

// The choices that are left for a number: none where the least is above the last.
#[derive(Clone, Copy)]
pub struct Choices {
    pub least: u16,
    pub last: u16,
}

// The least rank from this one on that clock z may have in an open interval, with room for ranks up to the last. Where a clock before it has that one,
// every other clock has to have one that is missing, so those that are not are left out.
fn next_rank(ranks: [u8; 4], z: usize, last: u8, from: u16) -> u16
    requires { z ≤ 4 }
    ensures { PassesOver ranks z last from result }
{
    if is_used(ranks, z, last) {
        next_unused(ranks, z, last, from)
    } else {
        from
    }
}

impl Search {
    // The choices from this one on for number i of the part: intervals that the clock's move does not permit are left out, and ranks that leave one
    // missing. In an interval that is not open the rank is 0, in any other at most the last there is room for.
    #[tactic(auto, using(crate::proofs::Laws::Choice::interval_skips, crate::proofs::Laws::Choice::interval_ends, crate::proofs::Laws::Choice::rank_shut, crate::proofs::Laws::Choice::rank_ends))]
    pub fn choices(self, part: Region, i: usize, from: u16) -> Choices
        requires i_nonzero { (0 < i) × (i < 1 + 2 * self.clocks.count) }
        ensures least { Skips self part i from result.least }
        ensures last { Ends self part i result.last }
    {
        let n = usize::from(self.clocks.count);
        if i <= n {
            let asked = self.moves.each[i - 1];
            return Choices {
                least: asked.next_permitted(from),
                last: asked.top,
            };
        }
        let z = i - 1 - n;
        if !is_open(self.clocks.bounds[z], part.intervals[z]) {
            return Choices {
                least: from,
                last: 0,
            };
        }
        let last = part.rank_room(self.clocks, z);
        // in an open interval no rank is 0
        Choices {
            least: next_rank(part.ranks, z, last, from.max(1)),
            last: u16::from(last),
        }
    }

    // Whether the ranks chosen so far have no positions, so that nothing can come of the part: seen before the next rank is chosen.
    #[tactic(auto, using(crate::proofs::Laws::Choice::not_yet, crate::proofs::Laws::Choice::stuck_is))]
    pub fn is_stuck(self, part: Region, i: usize) -> bool
        requires i_bound { i ≤ 1 + 2 * self.clocks.count }
        ensures { result ≡ stuckb self part i }
    {
        let n = usize::from(self.clocks.count);
        n + 1 < i && !self.moves.are_placed(part, i - 1 - n)
    }
}
