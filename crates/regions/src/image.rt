// The next region by a deterministic edge, one whose updates ask for one value each: computed clock by clock, with no search.
// Bounds of a number stay clauses here: the check finds them at each call, and a type around the number would be opened at each use.
// What joins two parameters stays a clause here: a type of both would be made anew for each call, and taken apart in it.
ghost use Rattle.std.specs.Prelude.{◌≡◌, true, ℕ, ◌+◌, ◌≤◌, ◌<◌};
ghost use Rattle.automata.specs.Clocks.{at, count};
ghost use Rattle.automata.specs.Row.{IsRow};
ghost use Rattle.automata.specs.Rankings.{usedb};
ghost use Rattle.automata.specs.Edge.{Bounded};
ghost use Rattle.automata.specs.Successors.{guardsb, held, edge_rows};
ghost use Rattle.regions.specs.Values.{bounds_of, row_of, padded, sought, found_of, update_of, edge_of};
ghost use Rattle.regions.specs.Image.{settledb, deterministic, moved_interval, moved_rank, moved, marked, dense};

use crate::clock_move::Move;
use crate::clocks::Clocks;
use crate::comparison;
use crate::edge::{Action, Edge, Update};
use crate::region::Region;

// Edges with one next region at most ---------------------------------------------------------------------------------------------

// Whether the update asks for one value: the old one, or that of a constant or of a clock plus an offset.
fn is_settled(update: Update) -> bool
    ensures { result ≡ settledb (update_of update) }
{
    match update.action {
        Action::Keep => true,
        Action::Constant(_) => comparison::is_at_alone(update.comparison),
        Action::Clock(_, _, _) => comparison::is_at_alone(update.comparison),
    }
}

// Whether the updates of all clocks do. Then the edge leads from a region to one region at most.
pub fn is_deterministic(n: usize, e: Edge) -> bool
    requires { n ≤ 4 }
    ensures { result ≡ deterministic n (edge_of n e) }
{
    (0..n).all(|z| is_settled(e.updates[z]))
}

// One clock --------------------------------------------------------------------------------------------------------------------------

impl Move {
    // The interval of the one value that is asked for: the old clock's with the offset, and no higher than the top.
    fn moved_interval(self) -> u16
        requires { self.shift ≤ self.reference }
        ensures { result ≡ moved_interval self }
    {
        (self.reference - self.shift).min((self.top as u32)) as u16
    }

    // The old rank of the new fractional part, which is the old clock's: a whole offset leaves it. 0 where the new interval is not open.
    fn moved_rank(self, interval: u16) -> u8
        requires { interval ≡ moved_interval self }
        ensures { result ≡ moved_rank self }
    {
        if interval < self.top && interval % 2 == 1 {
            self.rank
        } else {
            0
        }
    }
}

// Ranks with none missing ------------------------------------------------------------------------------------------------------------

// Which ranks the first clocks have.
fn used_ranks(ranks: [u8; 4], clocks: usize) -> [bool; 5]
    requires clocks_bound { clocks ≤ 4 }
    requires by_index { (z : ℕ) → z < clocks → at ranks z ≤ 4 }
    ensures { (a : ℕ) → a < 5 → marked result a ≡ usedb ranks clocks a }
{
    let mut used = [false; 5];
    for z in 0..clocks {
        used[ranks[z] as usize] = true;
    }
    used
}

// For each rank how many of those from 1 up to it are used.
fn new_ranks(used: [bool; 5]) -> [u8; 5]
    ensures { (a : ℕ) → a < 5 → at result a ≡ count (marked used) a }
{
    let mut counts = [0; 5];
    let mut total = 0;
    for rank in 1..5 {
        total += u8::from(used[rank]);
        counts[rank] = total;
    }
    counts
}

// The ranks of the first clocks in the same order, with none missing.
fn dense_ranks(ranks: [u8; 4], clocks: usize) -> [u8; 4]
    requires clocks_bound { clocks ≤ 4 }
    requires by_index { (z : ℕ) → z < clocks → at ranks z ≤ 4 }
    ensures { result ≡ padded (dense ranks clocks) }
{
    let counts = new_ranks(used_ranks(ranks, clocks));
    let mut dense = [0; 4];
    for z in 0..clocks {
        dense[z] = counts[ranks[z] as usize];
    }
    dense
}

// The next region --------------------------------------------------------------------------------------------------------------------

impl Region {
    // The new intervals, and beside them the old ranks of the new parts, some of which can be missing; none if a value would be below 0.
    fn moved(self, clocks: Clocks, e: Edge) -> Option<Region>
        requires bounded { Bounded (bounds_of clocks) (edge_of clocks.count e) }
        ensures { result ≡ sought (moved (bounds_of clocks) (edge_of clocks.count e) (row_of clocks.count self)) }
    {
        let n = clocks.count as usize;
        let mut intervals = [0; 4];
        let mut ranks = [0; 4];
        for z in 0..n {
            let asked = self.clock_move(clocks, z, e.updates[z]);
            if asked.reference < asked.shift {
                return None;
            }
            let interval = asked.moved_interval();
            intervals[z] = interval;
            ranks[z] = asked.moved_rank(interval);
        }
        Some(Region {
            location: e.target,
            intervals,
            ranks,
        })
    }

    // The only region that a deterministic edge leads to from this one, where its guards hold; or none.
    pub fn image(self, clocks: Clocks, e: Edge) -> Option<Region>
        requires row { IsRow (bounds_of clocks) (row_of clocks.count self) }
        requires bounded { Bounded (bounds_of clocks) (edge_of clocks.count e) }
        requires e_value { deterministic clocks.count (edge_of clocks.count e) ≡ true }
        requires location_value { self.location ≡ e.source }
        requires e_value_2 { guardsb (row_of clocks.count self) (edge_of clocks.count e).guards ≡ true }
        ensures { edge_rows (bounds_of clocks) (edge_of clocks.count e) (row_of clocks.count self) ≡ held (found_of clocks.count result) }
    {
        let landed = self.moved(clocks, e)?;
        let ranks = dense_ranks(landed.ranks, clocks.count as usize);
        Some(Region { ranks, ..landed })
    }
}
