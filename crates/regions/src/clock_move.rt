// One clock's move: what its update asks of the clock's new interval, and of the place of its new fractional part among the old ones.
// Bounds of a number stay clauses here: the check finds them at each call, and a type around the number would be opened at each use.
// A comparison stays a number (`comparison.rt` says why).
ghost use Rattle.std.specs.Prelude.{◌≡◌, ◌&&◌, ◌+◌, ◌*◌, ◌-◌, ◌%◌, ◌<◌, ◌≤◌, eqb, leb};
ghost use Rattle.automata.specs.Comparison.{holds};
ghost use Rattle.automata.specs.Edge.{BoundedBy};
ghost use Rattle.automata.specs.Successors.{least};
ghost use Rattle.regions.specs.Values.{bounds_of, row_of, update_of};
ghost use Rattle.regions.specs.Move.{move_of, fits_at, permitsb, Stretch};

use crate::clocks::Clocks;
use crate::comparison;
use crate::edge::{Action, Update};
use crate::region::Region;

// The new interval plus shift stands in the comparison to the reference, the old clock's interval with what is added; what is taken away
// stands on the new interval's side, so that nothing is ever negative. Equal odd intervals leave the order to the new part's place and
// the old clock's rank. Top is the top interval of the clock that moves.
#[derive(Clone, Copy)]
pub struct Move {
    pub comparison: u8,
    pub shift: u32,
    pub reference: u32,
    pub rank: u8,
    pub top: u16,
}

// A whole value as an interval.
fn twice(value: u16) -> u32
    ensures { result ≡ 2 * value }
{
    2 * (value as u32)
}

// An interval a whole value further up.
fn raised(interval: u16, value: u16) -> u32
    ensures { result ≡ interval + 2 * value }
{
    (interval as u32) + 2 * (value as u32)
}

impl Region {
    // What an update asks of clock z, whose old value and those of all clocks lie in this region.
    pub fn clock_move(self, clocks: Clocks, z: usize, update: Update) -> Move
        requires z_lt_count { z < clocks.count }
        requires bounded_by { BoundedBy (bounds_of clocks) z (update_of update).action }
        ensures { result ≡ move_of (bounds_of clocks) (row_of clocks.count self) z (update_of update) }
    {
        let top = 2 * clocks.bounds[z] + 1;
        match update.action {
            Action::Keep => Move {
                comparison: comparison::EQUAL,
                shift: 0,
                reference: (self.intervals[z] as u32),
                rank: self.ranks[z],
                top,
            },
            Action::Constant(value) => Move {
                comparison: update.comparison,
                shift: 0,
                reference: twice(value),
                rank: 0,
                top,
            },
            Action::Clock(y, up, down) => {
                let y = y as usize;
                Move {
                    comparison: update.comparison,
                    shift: twice(down),
                    reference: raised(self.intervals[y], up),
                    rank: self.ranks[y],
                    top,
                }
            }
        }
    }
}

impl Move {
    // The new interval plus shift, in a type that holds any such sum.
    fn moved(self, interval: u16) -> u64
        ensures { result ≡ interval + self.shift }
    {
        (interval as u64) + (self.shift as u64)
    }

    // Whether the new value, at the top, can be chosen below, at or above what it is compared with.
    fn is_free(self, interval: u16) -> bool
        ensures { result ≡ (eqb interval self.top && leb (interval + self.shift) self.reference) }
    {
        interval == self.top && self.moved(interval) <= (self.reference as u64)
    }

    // Whether the order is that of the fractional parts.
    pub fn is_by_parts(self, interval: u16) -> bool
        ensures { result ≡ (eqb (interval + self.shift) self.reference && eqb (interval % 2) 1) }
    {
        self.moved(interval) == (self.reference as u64) && interval % 2 == 1
    }

    // Whether the move allows the interval with the new part at the position: 2 q - 1 is at rank q's part, 2 q between that and the next. Where any
    // order can be had, every comparison does, since each allows some order.
    pub fn fits_at(self, interval: u16, position: u8) -> bool
        ensures { result ≡ fits_at self interval position }
    {
        if self.is_free(interval) {
            return comparison::is_comparison(self.comparison);
        }
        if self.is_by_parts(interval) {
            return comparison::holds(
                self.comparison,
                (position as u64) + 1,
                2 * (self.rank as u64),
            );
        }
        self.holds(interval)
    }

    // Whether the new interval plus shift stands in the comparison to the reference.
    fn holds(self, interval: u16) -> bool
        ensures { result ≡ holds self.comparison (interval + self.shift) self.reference }
    {
        comparison::holds(
            self.comparison,
            self.moved(interval),
            (self.reference as u64),
        )
    }

    // Whether the move permits the interval, at some position.
    pub fn permits(self, interval: u16) -> bool
        ensures { result ≡ permitsb self interval }
    {
        if self.is_free(interval) || self.is_by_parts(interval) {
            return comparison::is_comparison(self.comparison);
        }
        self.holds(interval)
    }

    // Where the next stretch of intervals begins: of those below the reference, of the one at it, of those above it, and of the top the same is known,
    // so that one of them tells for all.
    pub fn next_stretch(self, interval: u16) -> u16
        requires { (interval ≤ self.top) × (self.top < 65535) }
        ensures { Stretch self interval result }
    {
        if interval == self.top {
            return interval + 1;
        }
        let moved = self.moved(interval);
        let reference = (self.reference as u64);
        if moved == reference {
            return interval + 1;
        }
        if reference < moved {
            return self.top;
        }
        (reference - (self.shift as u64)).min((self.top as u64)) as u16
    }

    // The least interval from this one on that the move permits, or the one above the top. At most four stretches are tried, however many
    // intervals there are.
    pub fn next_permitted(self, from: u16) -> u16
        requires { self.top < 65535 }
        ensures { result ≡ least (permitsb self) (self.top + 1 - from) from }
    {
        let mut interval = from;
        while interval <= self.top {
            if self.permits(interval) {
                return interval;
            }
            interval = self.next_stretch(interval);
        }
        interval
    }
}
