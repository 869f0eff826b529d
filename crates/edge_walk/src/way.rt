// An edge's way from a region: what a walk over the regions that the edge leads to goes by, worked out once for all of them.
// What joins two parameters stays a clause here: a type of both would be made anew for each call, and taken apart in it.
ghost use Rattle.std.specs.Prelude.{◌≡◌, true, ◌&&◌, eqb, ◌≤◌, IfSome};
ghost use Rattle.automata.specs.Row.{IsRow};
ghost use Rattle.automata.specs.Edge.{Bounded};
ghost use Rattle.automata.specs.Successors.{guardsb, edge_rows};
ghost use Rattle.regions.specs.Values.{Few, bounds_of, row_of, edge_of};
ghost use Rattle.edge_walk.specs.Choice.{Ready};
ghost use Rattle.edge_walk.specs.Way.{way_rows};

use crate::search::Search;
use regions::clocks::Clocks;
use regions::edge::Edge;
use regions::region::Region;

// Where it leads to, and what is sought there.
#[derive(Clone, Copy)]
pub struct Way {
    pub target: u8,
    pub search: Search,
}

// The way from a region in the edge's source where its guards hold, or none where some clock's move permits nothing.
#[tactic(auto, using(crate::proofs::Laws::Way::low_tops, crate::proofs::Laws::Way::way_is))]
pub fn open_way(clocks: Clocks, from: Region, e: Edge) -> Option<Way>
    requires row { IsRow (bounds_of clocks) (row_of clocks.count from) }
    requires bounded { Bounded (bounds_of clocks) (edge_of clocks.count e) }
    ensures clocks { IfSome result (λ way. way.search.clocks ≡ clocks) }
    ensures target { IfSome result (λ way. way.target ≡ e.target) }
    ensures rows { from.location ≡ e.source → guardsb (row_of clocks.count from) (edge_of clocks.count e).guards ≡ true → way_rows result ≡ edge_rows (bounds_of clocks) (edge_of clocks.count e) (row_of clocks.count from) }
{
    let moves = from.moves(clocks, e);
    if !moves.all_permit(usize::from(clocks.count)) {
        return None;
    }
    Some(Way {
        target: e.target,
        search: Search { clocks, moves },
    })
}

// Whether the edge can be taken from the region: it is in the source, and the guards hold there.
pub fn is_enabled(clocks: Clocks, from: Region, e: Edge) -> bool
    requires bounded { Bounded (bounds_of clocks) (edge_of clocks.count e) }
    ensures { result ≡ (eqb from.location e.source && guardsb (row_of clocks.count from) (edge_of clocks.count e).guards) }
{
    from.location == e.source && from.guards_hold(clocks, e)
}

// The way from any region, or none where the edge leads nowhere. Where it cannot be taken no moves are worked out.
#[tactic(auto, using(crate::proofs::Laws::Way::no_way, crate::proofs::Laws::Way::taken))]
pub fn way_by(clocks: Clocks, from: Region, e: Edge) -> Option<Way>
    requires row { IsRow (bounds_of clocks) (row_of clocks.count from) }
    requires bounded { Bounded (bounds_of clocks) (edge_of clocks.count e) }
    ensures clocks { IfSome result (λ way. way.search.clocks ≡ clocks) }
    ensures rows { way_rows result ≡ edge_rows (bounds_of clocks) (edge_of clocks.count e) (row_of clocks.count from) }
{
    if !is_enabled(clocks, from, e) {
        return None;
    }
    open_way(clocks, from, e)
}
