// Whether an edge leads anywhere from a region: for edges of which no next region is wanted.
// What joins two parameters stays a clause here: a type of both would be made anew for each call, and taken apart in it.
ghost use Rattle.std.specs.Prelude.{◌≡◌, true, false, [], ◌≤◌};
ghost use Rattle.automata.specs.Row.{Row, IsRow};
ghost use Rattle.automata.specs.Edge.{Bounded};
ghost use Rattle.automata.specs.Closed.{Mem};
ghost use Rattle.automata.specs.Successors.{edge_rows};
ghost use Rattle.regions.specs.Values.{bounds_of, row_of, edge_of};

use edge_walk::walk::next_region;
use regions::clocks::Clocks;
use regions::edge::Edge;
use regions::region::Region;

// Whether the edge leads to any region from this one.
#[tactic(auto, using(crate::proofs::Laws::NextRows::some_led, crate::proofs::Laws::NextRows::nothing_led))]
pub fn leads_anywhere(clocks: Clocks, e: Edge, from: Region) -> bool
    requires row { IsRow (bounds_of clocks) (row_of clocks.count from) }
    requires bounded { Bounded (bounds_of clocks) (edge_of clocks.count e) }
    ensures some { result ≡ true → (x : Row) × Mem x (edge_rows (bounds_of clocks) (edge_of clocks.count e) (row_of clocks.count from)) }
    ensures none { result ≡ false → edge_rows (bounds_of clocks) (edge_of clocks.count e) (row_of clocks.count from) ≡ [] }
{
    next_region(clocks, from, e, None).is_some()
}
