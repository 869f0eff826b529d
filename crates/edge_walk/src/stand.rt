// Where a walk stands: the numbers chosen so far, and what is left to try for the next one. A walk is a loop of steps from one stand to the next.
// Bounds of a number stay clauses here: the check finds them at each call, and a type around the number would be opened at each use.
ghost use Rattle.std.specs.Prelude.{◌≡◌, true, false, ◌+◌, ◌*◌, ◌≤◌, ◌<◌};
ghost use Rattle.edge_walk.specs.Choice.{Ready};
ghost use Rattle.edge_walk.specs.Stand.{start, back, Begun, Standing, Advance};

use crate::search::Search;
use regions::region::Region;

// The first `depth` numbers of the part are chosen; what stands in the others is left from choices before. For the next one the choices from `least` on
// are left. At depth 0 the walk is over: its location is no longer left to try.
#[derive(Clone, Copy)]
pub struct Stand {
    pub part: Region,
    pub depth: usize,
    pub least: u32,
}

// Where a walk over regions of this location begins.
pub fn start_in(location: u8) -> Stand
    ensures { result ≡ start location }
{
    Stand {
        part: Region {
            location,
            intervals: [0; 4],
            ranks: [0; 4],
        },
        depth: 1,
        least: 0,
    }
}

// One step back, for n clocks: to the number chosen last, and past the choice that it has.
pub fn step_back(n: usize, at: Stand) -> Stand
    requires n_bound { n ≤ 4 }
    requires depth_nonzero { (0 < at.depth) × (at.depth ≤ 1 + 2 * n) }
    ensures { result ≡ back n at }
{
    let depth = at.depth - 1;
    Stand {
        depth,
        least: u32::from(at.part.number(n, depth)) + 1,
        ..at
    }
}

impl Search {
    // One step: back where all that begins with the numbers chosen is done, or where no choice is left for the next number; else on to the least that is
    // left, or past it if nothing can come of it.
    pub fn step(self, at: Stand, done: bool) -> Stand
        requires standing { Standing self at }
        requires depth_nonzero { 0 < at.depth }
        requires depth_bound { done ≡ false → at.depth < 1 + 2 * self.clocks.count }
        ensures { Advance self (λ x. (done ≡ true) × Begun self at x) at result }
    {
        let n = usize::from(self.clocks.count);
        if done {
            return step_back(n, at);
        }
        // no choice is above 32,767, though a number of the region that the walk went on from may be
        if 32767 < at.least {
            return step_back(n, at);
        }
        let choices = self.choices(at.part, at.depth, at.least as u16);
        let choice = choices.least;
        if choices.last < choice {
            return step_back(n, at);
        }
        let further = at.part.with_number(n, at.depth, choice);
        if self.is_stuck(further, at.depth + 1) {
            return Stand {
                least: u32::from(choice) + 1,
                ..at
            };
        }
        Stand {
            part: further,
            depth: at.depth + 1,
            least: 0,
        }
    }
}
