// The places of the new fractional parts among the old ones: for each new rank a position, after those of the ranks before it, where all clocks
// of that rank fit. Position 2 q - 1 is at rank q's old part, position 2 q between that and the next.
// Bounds of a number stay clauses here: the check finds them at each call, and a type around the number would be opened at each use.
// What joins two parameters stays a clause here: a type of both would be made anew for each call, and taken apart in it.
ghost use Rattle.std.specs.Prelude.{◌≡◌, not, ◌||◌, ℕ, ◌+◌, ◌*◌, ◌-◌, ◌≤◌, ◌<◌, get_or, eqb};
ghost use Rattle.automata.specs.Clocks.{allb};
ghost use Rattle.automata.specs.Edge.{Bounded};
ghost use Rattle.automata.specs.Successors.{least};
ghost use Rattle.regions.specs.Move.{fits_at};
ghost use Rattle.regions.specs.Values.{bounds_of, row_of, edge_of};
ghost use Rattle.regions.specs.Placing.{still, rank_fits_at, greedy_at, placed_at, some_permitted, MovesOf};

use crate::clock_move::Move;
use crate::clocks::Clocks;
use crate::comparison;
use crate::edge::Edge;
use crate::region::Region;

// What an edge's updates ask of the new region: how many ranks the old one has, and each clock's move.
#[derive(Clone, Copy)]
pub struct Moves {
    pub ranks: u8,
    pub each: [Move; 4],
}

impl Region {
    // What an edge's updates ask of each clock, from this region.
    pub fn moves(self, clocks: Clocks, e: Edge) -> Moves
        requires bounded { Bounded (bounds_of clocks) (edge_of clocks.count e) }
        ensures { MovesOf (bounds_of clocks) (edge_of clocks.count e) (row_of clocks.count self) result }
    {
        let n = clocks.count as usize;
        // what stands where there is no clock; nothing reads it
        let still = Move {
            comparison: comparison::EQUAL,
            shift: 0,
            reference: 0,
            rank: 0,
            top: 0,
        };
        let mut each = [still; 4];
        for z in 0..n {
            each[z] = self.clock_move(clocks, z, e.updates[z]);
        }
        Moves {
            ranks: self.greatest_rank_of(n),
            each,
        }
    }
}

// Whether a clock that is in its new interval, with its new rank, has another rank than this one or fits at the position.
fn clock_fits(asked: Move, interval: u16, own: u8, rank: u8, position: u8) -> bool
    ensures { result ≡ (not (eqb own rank) || fits_at asked interval position) }
{
    own != rank || asked.fits_at(interval, position)
}

impl Moves {
    // Whether each of the first clocks has an interval that its move permits.
    pub fn all_permit(self, count: usize) -> bool
        requires count_bound { count ≤ 4 }
        requires by_index { (z : ℕ) → z < count → (get_or self.each z still).top < 65535 }
        ensures { result ≡ allb count (some_permitted self.each) }
    {
        (0..count).all(|z| self.each[z].next_permitted(0) <= self.each[z].top)
    }

    // Whether those of the first clocks that have the rank fit at the position.
    fn rank_fits(self, part: Region, count: usize, rank: u8, position: u8) -> bool
        requires { count ≤ 4 }
        ensures { result ≡ rank_fits_at self.each count part.intervals part.ranks rank position }
    {
        (0..count).all(|z| {
            clock_fits(
                self.each[z],
                part.intervals[z],
                part.ranks[z],
                rank,
                position,
            )
        })
    }

    // The least position from this one on where the rank fits, or one past the last.
    fn next_position(self, part: Region, count: usize, rank: u8, from: u8) -> u8
        requires count_bound { count ≤ 4 }
        requires ranks_bound { self.ranks ≤ 4 }
        ensures { result ≡ least (rank_fits_at self.each count part.intervals part.ranks rank) (2 * self.ranks + 1 - from) from }
    {
        let end = 2 * self.ranks + 1;
        (from..end)
            .find(|position| self.rank_fits(part, count, rank, *position))
            .unwrap_or(from.max(end))
    }

    // The least position of the rank, after those of the ranks before it: a greater rank never shares an old part's position, which is odd.
    fn least_position(self, part: Region, count: usize, rank: u8) -> u8
        requires count_bound { count ≤ 4 }
        requires ranks_bound { self.ranks ≤ 4 }
        ensures { result ≡ greedy_at (rank_fits_at self.each count part.intervals part.ranks) self.ranks rank }
    {
        let mut position = 0;
        for placed in 0..rank {
            position = self.next_position(part, count, placed + 1, position + position % 2);
        }
        position
    }

    // Whether the ranks of the first clocks have positions where every one of these clocks fits.
    pub fn are_placed(self, part: Region, count: usize) -> bool
        requires count_bound { count ≤ 4 }
        requires ranks_bound { self.ranks ≤ 4 }
        ensures { result ≡ placed_at self.each self.ranks count part.intervals part.ranks }
    {
        self.rank_fits(part, count, 0, 0)
            && self.least_position(part, count, part.greatest_rank_of(count)) <= 2 * self.ranks
    }
}
