// The walk over an edge's next regions: the least of them above a given one.
// Bounds of a number stay clauses here: the check finds them at each call, and a type around the number would be opened at each use.
// What joins two parameters stays a clause here: a type of both would be made anew for each call, and taken apart in it.
ghost use Rattle.std.specs.Prelude.{◌≡◌, ◌&&◌, ◌≤◌};
ghost use Rattle.automata.specs.Row.{IsRow};
ghost use Rattle.automata.specs.Rows.{isrowb};
ghost use Rattle.automata.specs.Edge.{Bounded};
ghost use Rattle.automata.specs.Successors.{edge_rows};
ghost use Rattle.regions.specs.Values.{Few, bounds_of, row_of, region_of, sought, found_of, edge_of};
ghost use Rattle.edge_walk.specs.Walk.{first_above};
ghost use Rattle.edge_walk.specs.Choice.{Ready, Answers};
ghost use Rattle.edge_walk.specs.Stand.{after, Ahead, Standing};
ghost use Rattle.edge_walk.specs.Way.{rows_on};

use crate::search::Search;
use crate::stand::{Stand, start_in, step_back};
use crate::way::{Way, way_by};
use regions::clocks::Clocks;
use regions::edge::Edge;
use regions::region::Region;

impl Search {
    // The least region that is ahead of a walk which stands there.
    #[tactic(auto, using(crate::proofs::Laws::Meet::one_met, crate::proofs::Laws::Meet::not_all, crate::proofs::Laws::Meet::nothing_met))]
    fn meet(self, start: Stand) -> Option<Region>
        requires standing { Standing self start }
        ensures { Answers (Ahead self start) result }
    {
        let all = 1 + 2 * usize::from(self.clocks.count);
        let mut at = start;
        while 0 < at.depth {
            let done = at.depth == all;
            if is_met(self.clocks, at.part, done) {
                return Some(at.part);
            }
            at = self.step(at, done);
        }
        None
    }
}

// Whether a part is a region, all of its numbers being chosen.
fn is_met(clocks: Clocks, part: Region, chosen: bool) -> bool
    ensures { result ≡ (chosen && isrowb (bounds_of clocks) (row_of clocks.count part)) }
{
    chosen && part.is_region(clocks)
}

// The region with zeros from number n of its intervals and of its ranks on, so that it is one of n clocks.
fn trimmed(n: usize, region: Region) -> Region
    requires { n ≤ 4 }
    ensures { result ≡ region_of (row_of n region) }
{
    let mut plain = region;
    plain.intervals[n..].fill(0);
    plain.ranks[n..].fill(0);
    plain
}

// Where a walk goes on that has met a region.
fn after(n: usize, region: Region) -> Stand
    requires { n ≤ 4 }
    ensures { result ≡ after n region }
{
    let met = Stand {
        part: trimmed(n, region),
        depth: 1 + 2 * n,
        least: 0,
    };
    step_back(n, met)
}

impl Way {
    // The least region on the way above the floor, or the first where there is no floor; or none. Where the floor is in the target, the walk goes on right
    // past it, whether it was met or not.
    pub fn next(self, floor: Option<Region>) -> Option<Region>
        ensures { result ≡ sought (first_above (found_of self.search.clocks.count floor) (rows_on self)) }
    {
        if let Some(region) = floor {
            // every region of the target is below it
            if self.target < region.location {
                return None;
            }
            if region.location == self.target {
                let n = usize::from(self.search.clocks.count);
                return self.search.meet(after(n, region));
            }
        }
        self.search.meet(start_in(self.target))
    }
}

// The least region above the floor, or the first where there is no floor, of those that the edge leads to; or none. For a caller that wants one region:
// following works the way out once, and then asks it for each.
#[tactic(auto, using(crate::proofs::Laws::First::nothing_first))]
pub fn next_region(clocks: Clocks, from: Region, e: Edge, floor: Option<Region>) -> Option<Region>
    requires row { IsRow (bounds_of clocks) (row_of clocks.count from) }
    requires bounded { Bounded (bounds_of clocks) (edge_of clocks.count e) }
    ensures { result ≡ sought (first_above (found_of clocks.count floor) (edge_rows (bounds_of clocks) (edge_of clocks.count e) (row_of clocks.count from))) }
{
    way_by(clocks, from, e)?.next(floor)
}
