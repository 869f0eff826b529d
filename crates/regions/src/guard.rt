// Guards in a region: a clock stands to a whole constant as its interval stands to twice that, for all points of the region alike.
// What joins two parameters stays a clause here: a type of both would be made anew for each call, and taken apart in it.
ghost use Rattle.std.specs.Prelude.{◌≡◌, ◌*◌, ◌≤◌, ◌<◌};
ghost use Rattle.automata.specs.Clocks.{at};
ghost use Rattle.automata.specs.Comparison.{holds};
ghost use Rattle.automata.specs.Edge.{GuardsIn};
ghost use Rattle.automata.specs.Successors.{guardsb};
ghost use Rattle.regions.specs.Values.{bounds_of, row_of, edge_of};

use crate::clocks::Clocks;
use crate::comparison;
use crate::edge::{Edge, Guard};
use crate::region::Region;

impl Region {
    // Whether a guard holds: the clock's interval against twice the constant.
    fn guard_holds(self, clocks: Clocks, guard: Guard) -> bool
        requires clock_lt_count { guard.clock < clocks.count }
        ensures { result ≡ holds guard.comparison (at (row_of clocks.count self).intervals guard.clock) (2 * guard.constant) }
    {
        let interval = self.intervals[guard.clock as usize];
        comparison::holds(
            guard.comparison,
            (interval as u64),
            2 * (guard.constant as u64),
        )
    }

    // Whether every guard of an edge holds in this region.
    pub fn guards_hold(self, clocks: Clocks, e: Edge) -> bool
        requires guards_in { GuardsIn (bounds_of clocks) (edge_of clocks.count e).guards }
        ensures { result ≡ guardsb (row_of clocks.count self) (edge_of clocks.count e).guards }
    {
        for i in 0..(e.guard_count as usize).min(8) {
            if !self.guard_holds(clocks, e.guards[i]) {
                return false;
            }
        }
        true
    }
}
