// The walk over the intervals of an edge's next regions, for who takes all regions of the same intervals at once: its steps choose no rank.
ghost use Rattle.std.specs.Prelude.{◌≡◌, ◌+◌, ◌<◌};
ghost use Rattle.edge_walk.specs.Choice.{Ready};
ghost use Rattle.edge_walk.specs.Stand.{Begun, Standing, Advance};
ghost use Rattle.edge_walk.specs.Intervals.{Chosen};

use crate::search::Search;
use crate::stand::{Stand, step_back};

impl Search {
    // One step: back where all intervals are chosen, so that all that begins with them is done, or where none is left for the next clock; else on to the
    // least that is left.
    pub fn step_intervals(self, at: Stand) -> Stand
        requires standing { Standing self at }
        requires depth_nonzero { 0 < at.depth }
        requires chosen_2 { Chosen self at }
        ensures step { Advance self (λ x. (at.depth ≡ 1 + self.clocks.count) × Begun self at x) at result }
        ensures chosen { Chosen self result }
    {
        let n = usize::from(self.clocks.count);
        let depth = at.depth;
        if depth == 1 + n {
            return step_back(n, at);
        }
        // no interval is above 32,767
        if 32767 < at.least {
            return step_back(n, at);
        }
        // copies of its own, so that the compiler keeps the search for the interval in registers: a tenth of the time of following
        let moves = self.moves;
        let asked = moves.each[depth - 1];
        let choice = asked.next_permitted(at.least as u16);
        if asked.top < choice {
            return step_back(n, at);
        }
        let part = at.part;
        Stand {
            part: part.with_number(n, depth, choice),
            depth: depth + 1,
            least: 0,
        }
    }
}
